ghost use Rattle.std.specs.Prelude.{◌≤◌};
ghost use Rattle.equation_core.specs.declared.shards.TheConstants.{MAX_SHIFT};

use card_core::{Block, Leaf};
use octets_core::Key32;

/// The leaf of a shard, with the issuer of its block and by how many bits that is cut.
#[derive(Drop)]
pub(crate) struct ShardLeaf {
    pub(crate) issuer: Key32,
    pub(crate) shift: u8,
    pub(crate) leaf: Leaf,
    ghost some: { 1 ≤ shift },
    ghost few: { shift ≤ MAX_SHIFT },
}

/// What a leaf is built as.
#[derive(Drop)]
pub(crate) enum Built {
    /// The block of a group that isn't cut.
    Block(Block),
    /// The next leaf of one that is.
    Leaf(ShardLeaf),
}
