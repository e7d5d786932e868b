ghost use Rattle.std.specs.Prelude.{◌≡◌, ◌≤◌, ◌-◌};
ghost use Rattle.ident_core.specs.declared.bounds.TheConstants.{MAX_IDENTITIES};
ghost use Rattle.card_core.specs.Filter.{shift_for as shift_of};

use equation_core::MAX_SHIFT;

// How many identities a shard has on average at least.
const SHARD_SIZE: u32 = 16_384;

/// How many bits tell the shards of a universe of which so many are revoked, where large universes are cut. It is 0, so
/// that there is one leaf, where the universe is small, or none or all of it is revoked.
pub fn shift_for(universe: u32, revoked: u32) -> u8
    requires among { revoked ≤ universe }
    requires few { universe ≤ MAX_IDENTITIES }
    ensures { result ≡ shift_of revoked (universe - revoked) }
{
    if revoked == 0 || revoked == universe {
        return 0;
    }
    let mut shift = MAX_SHIFT;
    while shift > 0 && universe < SHARD_SIZE << shift {
        shift -= 1;
    }
    shift
}
