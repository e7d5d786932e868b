//! Blocks that begin at places in bytes, searched by halves among those of a bucket.

ghost use Rattle.std.specs.Prelude.{◌≡◌, ℕ, List, ◌≤◌, ◌+◌, ◌-◌, ◌*◌, ◌^◌, ◌<◌, length, IfSome};
ghost use Rattle.card_core.specs.declared.block.Block.{Block};
ghost use Rattle.card_core.specs.Consulting.{IsPlaceOf};
ghost use Rattle.view_core.specs.Index.{buckets_of};
ghost use Rattle.view_core.specs.Standing.{AreBlocksAt};

use crate::buckets::bounds_of;
use crate::reading::order_at;
use octets_core::{Key32, Steps};
use std::cmp::Ordering;
use std::sync::ledger::Ledger;

/// Which of the blocks that begin at these places, with this table of buckets, is the issuer's. Each comparison of
/// issuers is one probe.
#[inline(always)]
pub(crate) fn place_of<L: Ledger>(
    bytes: &[u8],
    places: &[u32],
    buckets: &[u32],
    issuer: &Key32,
    probes: &mut Steps<L>,
) -> Option<usize>
    ensures place { (at : ℕ) (blocks : List Block) → AreBlocksAt bytes.now at places.now blocks
        → buckets.now ≡ buckets_of blocks → IsPlaceOf issuer.now blocks result }
    ensures within { IfSome result (λ i. i < length places.now) }
    ensures later { probes.old ≤ probes.new }
    ensures few { 2 ^ (probes.new - probes.old) ≤ 2 * length places.now + 1 }
{
    let (mut low, mut high) = bounds_of(buckets, places.len(), issuer);
    while low < high {
        let middle = low + (high - low) / 2;
        probes.tick();
        match order_at(bytes, places[middle] as usize, issuer) {
            Ordering::Equal => return Some(middle),
            Ordering::Less => low = middle + 1,
            Ordering::Greater => high = middle,
        }
    }
    None
}
