//! The index of a store, written into words that are lent. A walk counts on where they have no room.

ghost use Rattle.std.specs.Prelude.{◌≡◌, ℕ, List, [], ◌∷◌, ◌++◌, ◌<◌, ◌≤◌, ◌^◌, ◌+◌, ◌*◌, length, take, drop, flat_map};
ghost use Rattle.std.specs.Prelude.{All, Ok, Some, IfSome, IsSome};
ghost use Rattle.std.specs.List.{list_any};
ghost use Rattle.octets_core.specs.Reading.{value_of};
ghost use Rattle.card_core.specs.declared.leaf.Leaf.{Leaf};
ghost use Rattle.card_core.specs.declared.block.Block.{Block};
ghost use Rattle.part_text.specs.SealedFields.{SealedFields};
ghost use Rattle.part_text.specs.PartLayout.{some_sharded};
ghost use Rattle.part_text.specs.PartText.{shard_leaf_text, block_text, spelling};
ghost use Rattle.part_text.specs.Fitting.{LeafFits, BlockFits, Fits};
ghost use Rattle.store_core.specs.StoreLayout.{store as store_layout};
ghost use Rattle.view_core.specs.Texts.{Stands, places_of};
ghost use Rattle.view_core.specs.Index.{blocks_at, part_index, parts_index, index_of};
ghost use Rattle.view_core.specs.Index.{has_shards, shards_in, shards_of as shards_of_blocks, shards_index};
ghost use Rattle.view_core.specs.Filling.{Wrote, Walked, WentOn};

use crate::buckets::put_buckets;
use crate::ends::{block_end, shard_end, shards_of};
use crate::layout::{BLOCK_HEAD, COUNT, PART_HEAD, STORE_HEAD, VERSION};
use crate::reading::{number8_at, number16_at, number32_at};
use ident_core::RANGE_BYTES;

/// Where a walk over a store is, and where in the index its next word goes.
#[derive(Clone, Copy, Debug)]
pub(crate) struct Walk {
    pub at: usize,
    pub to: usize,
}

/// Where a walk over parts is, and whether one of these has a block that is sharded.
#[derive(Clone, Copy, Debug)]
pub(crate) struct PartsWalk {
    pub walk: Walk,
    pub sharded: bool,
}

/// How many ranges and blocks a part has, and where the first block begins.
#[derive(Clone, Copy, Debug)]
pub(crate) struct Counts {
    pub ranges: u16,
    pub blocks: u32,
    pub first: usize,
}

/// Writes a word at this place of the index, if there is room.
fn put(index: &mut [u32], to: usize, word: u32)
    ensures { Wrote index.old index.new to (word ∷ []) }
{
    if to < index.len() {
        index[to] = word;
    }
}

/// Writes where the walk is, and goes on to this place.
fn put_place(from: Walk, end: usize, index: &mut [u32]) -> Walk
    requires few { from.at < 2 ^ 32 }
    requires room { from.to < 2 ^ 63 }
    ensures walk { result ≡ record { at = end; to = from.to + 1 } }
    ensures wrote { Wrote index.old index.new from.to (from.at ∷ []) }
{
    put(index, from.to, from.at as u32);
    Walk {
        at: end,
        to: from.to + 1,
    }
}

/// What a part tells of itself that begins at this place, if all before its blocks is there.
fn counts_at(store: &[u8], at: usize) -> Option<Counts>
    requires place { at < 2 ^ 63 }
    ensures value { (s : SealedFields) → Fits s → Stands store.now at (spelling s)
        → result
        ≡ Some record { ranges = length s.part.head.ranges; blocks = length s.part.blocks; first = blocks_at at s.part } }
    ensures within { IfSome result (λ counts. (at + PART_HEAD ≤ counts.first) × (counts.first ≤ length store.now)) }
{
    let ranges = number16_at(store, at + PART_HEAD - 2);
    let counted = at + PART_HEAD + RANGE_BYTES * ranges as usize;
    let first = counted + COUNT;
    if store.len() < first {
        return None;
    }
    Some(Counts {
        ranges,
        blocks: number32_at(store, counted),
        first,
    })
}

/// Whether a block of the part that begins at this place is sharded, which its version tells.
fn is_sharded_at(store: &[u8], at: usize) -> bool
    requires place { at < 2 ^ 63 }
    ensures { (s : SealedFields) → Fits s → Stands store.now at (spelling s) → result ≡ some_sharded s.part.blocks }
{
    number8_at(store, at + VERSION) == 2
}

/// Goes on behind the trailer of a part.
fn behind_trailer(store: &[u8], from: Walk) -> Option<Walk>
    requires place { from.at ≤ length store.now }
    ensures value { from.at + 32 ≤ length store.now → result ≡ Some record { at = from.at + 32; to = from.to } }
    ensures went { IfSome result (WentOn (length store.now) 0 from) }
{
    if store.len() - from.at < 32 {
        return None;
    }
    Some(Walk {
        at: from.at + 32,
        to: from.to,
    })
}

/// Writes where so many blocks begin.
fn put_blocks(store: &[u8], from: Walk, count: u32, index: &mut [u32]) -> Option<Walk>
    requires few { length store.now < 2 ^ 32 }
    requires place { from.at ≤ length store.now }
    requires room { from.to ≤ 2 ^ 62 }
    ensures value { (blocks : List Block) → All BlockFits blocks → length blocks ≡ count
        → Stands store.now from.at (flat_map block_text blocks)
        → Walked index.old index.new from (length (flat_map block_text blocks)) (places_of block_text from.at blocks)
        result }
    ensures went { IfSome result (WentOn (length store.now) count from) }
{
    let mut walk = from;
    for _ in 0..count {
        let end = block_end(store, walk.at)?;
        walk = put_place(walk, end, index);
    }
    Some(walk)
}

/// Writes what the index tells of a part.
fn put_part(store: &[u8], from: Walk, index: &mut [u32]) -> Option<Walk>
    requires few { length store.now < 2 ^ 32 }
    requires place { from.at ≤ length store.now }
    requires room { from.to ≤ 2 ^ 61 }
    ensures value { (s : SealedFields) → Fits s → Stands store.now from.at (spelling s)
        → Walked index.old index.new from (length (spelling s)) (part_index from.at s.part) result }
    ensures went { IfSome result (WentOn (length store.now) (2 ^ 34) from) }
{
    let counts = counts_at(store, from.at)?;
    put(index, from.to, u32::from(counts.ranges));
    put(index, from.to + 1, (from.at + PART_HEAD) as u32);
    put(index, from.to + 2, counts.blocks);
    let blocks = Walk {
        at: counts.first,
        to: from.to + 3,
    };
    let walk = put_blocks(store, blocks, counts.blocks, index)?;
    put_buckets(store, blocks.to, counts.blocks as usize, index);
    let behind = Walk {
        at: walk.at,
        to: walk.to + counts.blocks as usize,
    };
    behind_trailer(store, behind)
}

/// Writes what the index tells of so many parts.
fn put_parts(store: &[u8], from: Walk, count: u8, index: &mut [u32]) -> Option<PartsWalk>
    requires few { length store.now < 2 ^ 32 }
    requires place { from.at ≤ length store.now }
    requires room { from.to ≤ 2 ^ 60 }
    ensures there { (parts : List SealedFields) → All Fits parts → length parts ≡ count
        → Stands store.now from.at (flat_map spelling parts) → IsSome result }
    ensures value { IfSome result (λ gone. (parts : List SealedFields) → All Fits parts → length parts ≡ count
        → Stands store.now from.at (flat_map spelling parts)
        → Walked index.old index.new from (length (flat_map spelling parts)) (parts_index from.at parts) (Some gone.walk)) }
    ensures sharded { IfSome result (λ gone. (parts : List SealedFields) → All Fits parts → length parts ≡ count
        → Stands store.now from.at (flat_map spelling parts) → gone.sharded ≡ list_any has_shards parts) }
    ensures went { IfSome result (λ gone. WentOn (length store.now) (2 ^ 34 * count) from gone.walk) }
{
    let mut walk = from;
    let mut sharded = false;
    for _ in 0..count {
        sharded |= is_sharded_at(store, walk.at);
        walk = put_part(store, walk, index)?;
    }
    Some(PartsWalk { walk, sharded })
}

/// Writes where so many shards begin.
fn put_shards(store: &[u8], from: Walk, count: u16, index: &mut [u32]) -> Option<Walk>
    requires few { length store.now < 2 ^ 32 }
    requires place { from.at ≤ length store.now }
    requires room { from.to ≤ 2 ^ 62 }
    ensures value { (leaves : List Leaf) → All LeafFits leaves → length leaves ≡ count
        → Stands store.now from.at (flat_map shard_leaf_text leaves)
        → Walked index.old index.new from (length (flat_map shard_leaf_text leaves)) (places_of shard_leaf_text from.at leaves)
        result }
    ensures went { IfSome result (WentOn (length store.now) (2 ^ 16) from) }
{
    let mut walk = from;
    for _ in 0..count {
        let end = shard_end(store, walk.at)?;
        walk = put_place(walk, end, index);
    }
    Some(walk)
}

/// Writes where the shards of a block begin, if it is sharded.
fn put_shards_of_block(store: &[u8], from: Walk, index: &mut [u32]) -> Option<Walk>
    requires few { length store.now < 2 ^ 32 }
    requires place { from.at ≤ length store.now }
    requires room { from.to ≤ 2 ^ 62 }
    ensures value { (b : Block) → BlockFits b → Stands store.now from.at (block_text b)
        → Walked index.old index.new from (length (block_text b)) (shards_in from.at b.body) result }
    ensures went { IfSome result (WentOn (length store.now) (2 ^ 16) from) }
{
    let body = from.at + BLOCK_HEAD;
    if number8_at(store, body - 1) < 3 {
        let at = block_end(store, from.at)?;
        return Some(Walk { at, to: from.to });
    }
    if store.len() <= body {
        return None;
    }
    let first = Walk {
        at: body + 1,
        to: from.to,
    };
    put_shards(store, first, shards_of(number8_at(store, body)), index)
}

/// Writes where the shards of so many blocks begin.
fn put_shards_of_blocks(store: &[u8], from: Walk, count: u32, index: &mut [u32]) -> Option<Walk>
    requires few { length store.now < 2 ^ 32 }
    requires place { from.at ≤ length store.now }
    requires room { from.to ≤ 2 ^ 61 }
    ensures value { (blocks : List Block) → All BlockFits blocks → length blocks ≡ count
        → Stands store.now from.at (flat_map block_text blocks)
        → Walked index.old index.new from (length (flat_map block_text blocks)) (shards_of_blocks from.at blocks)
        result }
    ensures went { IfSome result (WentOn (length store.now) (2 ^ 48) from) }
{
    let mut walk = from;
    for _ in 0..count {
        walk = put_shards_of_block(store, walk, index)?;
    }
    Some(walk)
}

/// Writes where the shards of a part begin.
fn put_shards_of_part(store: &[u8], from: Walk, index: &mut [u32]) -> Option<Walk>
    requires few { length store.now < 2 ^ 32 }
    requires place { from.at ≤ length store.now }
    requires room { from.to ≤ 2 ^ 61 }
    ensures value { (s : SealedFields) → Fits s → Stands store.now from.at (spelling s)
        → Walked index.old index.new from (length (spelling s))
        (shards_of_blocks (blocks_at from.at s.part) s.part.blocks) result }
    ensures went { IfSome result (WentOn (length store.now) (2 ^ 48) from) }
{
    let counts = counts_at(store, from.at)?;
    let blocks = Walk {
        at: counts.first,
        to: from.to,
    };
    let walk = put_shards_of_blocks(store, blocks, counts.blocks, index)?;
    behind_trailer(store, walk)
}

/// Writes where the shards of so many parts begin.
fn put_shards_of_parts(store: &[u8], from: Walk, count: u8, index: &mut [u32]) -> Option<Walk>
    requires few { length store.now < 2 ^ 32 }
    requires place { from.at ≤ length store.now }
    requires room { from.to ≤ 2 ^ 60 }
    ensures value { (parts : List SealedFields) → All Fits parts → length parts ≡ count
        → Stands store.now from.at (flat_map spelling parts)
        → Walked index.old index.new from (length (flat_map spelling parts)) (shards_index from.at parts) result }
    ensures went { IfSome result (WentOn (length store.now) (2 ^ 48 * count) from) }
{
    let mut walk = from;
    for _ in 0..count {
        walk = put_shards_of_part(store, walk, index)?;
    }
    Some(walk)
}

/// Writes where the shards of so many parts begin, behind what the index tells of these parts. Where none is sharded
/// there is nothing to walk over.
fn put_shards_behind(store: &[u8], parts: PartsWalk, count: u8, index: &mut [u32]) -> Option<Walk>
    requires few { length store.now < 2 ^ 32 }
    requires long { STORE_HEAD ≤ length store.now }
    requires place { parts.walk.at ≤ length store.now }
    requires room { parts.walk.to ≤ 2 ^ 60 }
    ensures value { (list : List SealedFields) → All Fits list → length list ≡ count
        → Stands store.now STORE_HEAD (flat_map spelling list)
        → parts.walk.at ≡ STORE_HEAD + length (flat_map spelling list) → parts.sharded ≡ list_any has_shards list
        → Walked index.old index.new (record { at = STORE_HEAD; to = parts.walk.to }) (length (flat_map spelling list))
        (shards_index STORE_HEAD list) result }
    ensures went { IfSome result (λ walk. parts.walk.to ≤ walk.to) }
{
    if !parts.sharded {
        return Some(parts.walk);
    }
    let again = Walk {
        at: STORE_HEAD,
        to: parts.walk.to,
    };
    put_shards_of_parts(store, again, count, index)
}

/// Writes how many words tell of parts and how many of shards, before all of them.
fn put_counts(parts: usize, shards: usize, index: &mut [u32]) -> Option<()>
    ensures fits { parts < 2 ^ 32 → shards < 2 ^ 32 → IsSome result }
    ensures words { parts < 2 ^ 32 → shards < 2 ^ 32 → 2 ≤ length index.old
        → index.new ≡ parts ∷ shards ∷ drop 2 index.old }
{
    let parts = u32::try_from(parts).ok()?;
    let shards = u32::try_from(shards).ok()?;
    if index.len() >= 2 {
        index[0] = parts;
        index[1] = shards;
    }
    Some(())
}

/// Writes the index of a store, and answers how many words it has. Without room only the length is right.
pub(crate) fn fill(store: &[u8], index: &mut [u32]) -> Option<usize>
    requires few { length store.now < 2 ^ 32 }
    ensures value { (parts : List SealedFields) → value_of (store_layout store.now 0) ≡ Ok parts
        → result ≡ Some (length (index_of parts)) }
    ensures index { (parts : List SealedFields) → value_of (store_layout store.now 0) ≡ Ok parts
        → length (index_of parts) ≤ length index.old → take (length (index_of parts)) index.new ≡ index_of parts }
    ensures len { length index.new ≡ length index.old }
{
    if store.len() < STORE_HEAD {
        return None;
    }
    let count = number8_at(store, STORE_HEAD - 1);
    let first = Walk {
        at: STORE_HEAD,
        to: 2,
    };
    let parts = put_parts(store, first, count, index)?;
    let shards = put_shards_behind(store, parts, count, index)?;
    put_counts(parts.walk.to - 2, shards.to - parts.walk.to, index)?;
    Some(shards.to)
}

/// How many words the index of a store has.
pub fn index_length(store: &[u8]) -> Option<usize>
    ensures { (parts : List SealedFields) → length store.now < 2 ^ 32 → value_of (store_layout store.now 0) ≡ Ok parts
        → result ≡ Some (length (index_of parts)) }
{
    if store.len() > u32::MAX as usize {
        return None;
    }
    fill(store, &mut [])
}
