ghost use Rattle.std.specs.Prelude.{◌≡◌, ◌≤◌};
ghost use Rattle.equation_core.specs.declared.shards.TheConstants.{MAX_SHIFT};
ghost use Rattle.builder_core.specs.Cutting.{IsReady, shards_in};

use universe_core::Group;

/// A group, by how many bits its block is cut, and where it is the shard of each identity.
#[derive(Drop)]
pub(crate) struct Cut<'a> {
    pub(crate) group: &'a Group,
    pub(crate) shift: u8,
    pub(crate) shards: Vec<u8>,
    ghost ready: { IsReady group.now },
    ghost few: { shift ≤ MAX_SHIFT },
    ghost drawn: { shards.items ≡ shards_in shift group.now.universe.items },
}

/// A leaf that is to be built: that of a group which isn't cut, or of one of its shards.
#[derive(Clone, Copy)]
pub(crate) struct Task<'a> {
    pub(crate) group: &'a Group,
    pub(crate) shift: u8,
    pub(crate) shards: &'a [u8],
    pub(crate) shard: u8,
    ghost ready: { IsReady group.now },
    ghost few: { shift ≤ MAX_SHIFT },
    ghost drawn: { shards.now ≡ shards_in shift group.now.universe.items },
}
