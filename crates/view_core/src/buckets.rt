//! Buckets of issuers. A part has as many as blocks, and they share the keys among them in order, so that the blocks of
//! one stand together. A table tells how many blocks stand before each.

ghost use Rattle.std.specs.Prelude.{◌≡◌, ℕ, List, ◌≤◌, ◌<◌, ◌+◌, ◌*◌, ◌/◌, ◌^◌, length, take, drop, get_or};
ghost use Rattle.std.specs.Prelude.{true, nat_lt};
ghost use Rattle.card_core.specs.declared.block.Block.{Block};
ghost use Rattle.view_core.specs.Buckets.{InOrder, AreBounds};
ghost use Rattle.view_core.specs.Filling.{Wrote};
ghost use Rattle.view_core.specs.Index.{bucket_in, before_bucket, buckets_of};
ghost use Rattle.view_core.specs.Standing.{AreBlocksAt};
ghost use Rattle.view_core.specs.Texts.{Stands};

use crate::reading::first_eight_at;
use octets_core::Key32;

/// The bucket, of so many, of a key whose first eight bytes spell this number.
#[inline(always)]
fn bucket_of(first: u64, count: usize) -> usize
    ensures value { result ≡ first * count / 2 ^ 64 }
    ensures below { 0 < count → result < count }
{
    (u128::from(first) * count as u128 >> 64) as usize
}

/// How many blocks stand before a bucket, by a table of the buckets of so many blocks.
#[inline(always)]
fn before(table: &[u32], bucket: usize, count: usize) -> usize
    ensures value { (blocks : List Block) → table.now ≡ buckets_of blocks → length blocks ≡ count → bucket < count
        → result ≡ before_bucket count blocks bucket }
    ensures last { length table.now ≤ bucket → result ≡ count }
    ensures within { result ≤ count }
{
    match table.get(bucket) {
        Some(word) => (*word as usize).min(count),
        None => count,
    }
}

/// From where on and before where the blocks of a key's bucket stand, by a table of the buckets of so many blocks. Of
/// other words: some bounds among so many.
#[inline(always)]
pub(crate) fn bounds_of(table: &[u32], count: usize, key: &Key32) -> (usize, usize)
    ensures value { (blocks : List Block) → InOrder blocks → table.now ≡ buckets_of blocks → length blocks ≡ count
        → AreBounds blocks key.now result }
    ensures order { result.0 ≤ result.1 }
    ensures within { result.1 ≤ count }
{
    let bucket = bucket_of(first_eight_at(key.bytes(), 0), count);
    let high = before(table, bucket + 1, count);
    (before(table, bucket, count).min(high), high)
}

/// Whether there is a block of this number, and its bucket comes before this one, of so many.
#[inline(always)]
fn comes_before(bytes: &[u8], places: &[u32], block: usize, bucket: usize, count: usize) -> bool
    ensures value { (key : List ℕ) → length key ≡ 32 → block < length places.now
        → Stands bytes.now (get_or places.now block 0) key → result ≡ nat_lt (bucket_in count key) bucket }
    ensures within { result ≡ true → block < length places.now }
{
    match places.get(block) {
        Some(place) => bucket_of(first_eight_at(bytes, *place as usize), count) < bucket,
        None => false,
    }
}

/// Writes a table of as many buckets as there is room for, of blocks that begin at these places.
fn fill_table(bytes: &[u8], places: &[u32], table: &mut [u32])
    requires few { length places.now < 2 ^ 32 }
    ensures value { (at : ℕ) (blocks : List Block) → AreBlocksAt bytes.now at places.now blocks
        → length table.old ≡ length places.now → table.new ≡ buckets_of blocks }
    ensures len { length table.new ≡ length table.old }
{
    let mut block = 0;
    let mut bucket = 0;
    while bucket < table.len() {
        if comes_before(bytes, places, block, bucket, table.len()) {
            block += 1;
        } else {
            table[bucket] = block as u32;
            bucket += 1;
        }
    }
}

/// Writes the table behind the places of so many blocks, which begin at this place of the index, if there is room.
pub(crate) fn put_buckets(bytes: &[u8], to: usize, count: usize, index: &mut [u32])
    requires few { count < 2 ^ 32 }
    requires room { to < 2 ^ 62 }
    ensures { (at : ℕ) (blocks : List Block) → length blocks ≡ count
        → (to + count ≤ length index.old → AreBlocksAt bytes.now at (take count (drop to index.old)) blocks)
        → Wrote index.old index.new (to + count) (buckets_of blocks) }
{
    if index.len() < to + 2 * count {
        return;
    }
    let (front, rest) = index.split_at_mut(to + count);
    fill_table(bytes, &front[to..], &mut rest[..count]);
}
