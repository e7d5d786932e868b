//! What a block that stands in bytes says of a certificate.

ghost use Rattle.std.specs.Prelude.{◌≡◌, ℕ, List, ◌++◌, ◌<◌, ◌≤◌, ◌^◌, ◌+◌, length, get_or, Some, IfSome};
ghost use Rattle.std.specs.Ordering.{nat_cmp};
ghost use Rattle.std.specs.List.Sorted.{IsStrictlySortedBy};
ghost use Rattle.equation_core.specs.Rows.{sha256_row};
ghost use Rattle.card_core.specs.declared.block.Block.{Block};
ghost use Rattle.card_core.specs.ShardedFields.{ShardedFields};
ghost use Rattle.card_core.specs.Filter.{is_positive, is_filtered, cut};
ghost use Rattle.part_text.specs.PartText.{block_text, shard_leaf_text, sharded_text};
ghost use Rattle.part_text.specs.Fitting.{BlockFits, ShardsFit};
ghost use Rattle.view_core.specs.Texts.{Stands, places_of};
ghost use Rattle.view_core.specs.Standing.{HoldShards};

use crate::layout::BLOCK_HEAD;
use crate::leaf::{leaf_says, shard_says};
use crate::reading::number8_at;
use equation_core::{Draws, MAX_SHIFT};
use octets_core::Steps;
use std::sync::ledger::Ledger;

/// Where a shard begins, by the places of shards, of a block whose first shard begins at this place.
fn shard_place(places: &[u32], first: usize, shard: u8) -> Option<usize>
    ensures value { (before own behind : List ℕ) → IsStrictlySortedBy nat_cmp places.now
        → places.now ≡ before ++ own ++ behind → get_or own 0 0 ≡ first → shard < length own
        → result ≡ Some (get_or own shard 0) }
    ensures few { IfSome result (λ place. place < 2 ^ 32) }
{
    let first = u32::try_from(first).ok()?;
    let place = places.binary_search(&first).ok()?;
    let found = places.get(place + shard as usize)?;
    Some(*found as usize)
}

/// What the shards say of a block, whose shift stands at this place.
fn sharded_says<M: Ledger>(
    bytes: &[u8],
    at: usize,
    places: &[u32],
    draws: &mut Draws,
    words: &mut Steps<M>,
) -> bool
    requires place { at < 2 ^ 63 }
    ensures value { (s : ShardedFields) (before behind : List ℕ) → ShardsFit s → Stands bytes.now at (sharded_text s)
        → IsStrictlySortedBy nat_cmp places.now
        → places.now ≡ before ++ places_of shard_leaf_text (at + 1) s.leaves ++ behind
        → result ≡ is_filtered sha256_row draws.old (cut s.shift s.leaves) }
    ensures same { draws.new ≡ draws.old }
    ensures more { words.old ≤ words.new }
    ensures steps { words.new ≤ words.old + 51 }
{
    let shift = number8_at(bytes, at);
    if shift > MAX_SHIFT {
        return false;
    }
    match shard_place(places, at + 1, draws.shard(shift)) {
        Some(place) => shard_says(bytes, place, draws, words),
        None => false,
    }
}

/// What a block says that stands at this place. The places are those of shards.
pub(crate) fn block_says<M: Ledger>(
    bytes: &[u8],
    at: usize,
    places: &[u32],
    draws: &mut Draws,
    words: &mut Steps<M>,
) -> bool
    requires place { at < 2 ^ 32 }
    ensures value { (b : Block) → BlockFits b → Stands bytes.now at (block_text b) → HoldShards places.now at b
        → result ≡ is_positive sha256_row draws.old b.body }
    ensures same { draws.new ≡ draws.old }
    ensures more { words.old ≤ words.new }
    ensures steps { words.new ≤ words.old + 51 }
{
    let body = at + BLOCK_HEAD;
    let mode = number8_at(bytes, body - 1);
    if mode == 3 {
        sharded_says(bytes, body, places, draws, words)
    } else {
        leaf_says(bytes, body, mode, draws, words)
    }
}
