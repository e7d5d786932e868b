//! The fields of a part one by one: how wide each is, its test, what is kept of it, and which one follows.

ghost use Rattle.std.specs.Prelude.{◌≡◌, ◌≤◌, ◌-◌, ◌*◌, ◌↔◌, ℕ, List, length, true, IsTrue};
ghost use Rattle.equation_core.specs.declared.shards.TheConstants.{MAX_SHIFT};
ghost use Rattle.std.specs.Str.{bytes_eq};
ghost use Rattle.std.specs.Int.{w8, w16, w32, w64, from_be_bytes};
ghost use Rattle.sha2.specs.Sha256.{sha256};
ghost use Rattle.sha2.specs.Hashers.{Holds256};
ghost use Rattle.octets_core.specs.Linked.{is_after};
ghost use Rattle.equation_core.specs.Sizes.{words_for as words_of};
ghost use Rattle.octets_core.specs.Layout.{within};
ghost use Rattle.part_text.specs.PartLayout.{kind_of, is_parent, greatest_mode};
ghost use Rattle.part_codec.specs.Remaining.{previous, kept_range, kept_leaf, kept_ranges, kept_issuers};
ghost use Rattle.part_codec.specs.Remaining.{kept_shift, kept_leaf_mode, kept_mode};
ghost use Rattle.part_codec.specs.Stepping.{in_front, skips as skips_of, tail_of, is_padded_last, passes_last};
ghost use Rattle.part_codec.specs.Stepping.{AreStarts, ArePadded, IsShift, AreLimits, kept_after, name_of};
ghost use Rattle.part_codec.specs.Stepping.{open_range, open_block, open_leaf, open_mode, open_approx, open_plane, open_after};

use card_core::MAX_BLOCKS;
use equation_core::{MAX_PLANES, MAX_SHIFT, MAX_STARTS, words_for};
use ident_core::{Kind, MAX_RANGES};
use octets_core::{Field, Key32, key_of};
use sha2::{Digest, Sha256};
use std::alloc::AllocError;

/// The bytes of a trailer. No field is held in more.
pub(crate) const TRAILER: usize = 32;

/// The bytes of a block's issuer and its mode. No block has fewer.
pub(crate) const LEAST_BLOCK: usize = 33;

/// The field that is read next.
#[derive(Clone, Copy, Debug, PartialEq, Eq)]
pub(crate) enum Open {
    Magic,
    Version,
    Kind,
    Epoch,
    Parent,
    Ranges,
    RangeLog,
    RangeFrom,
    RangeTo,
    Issuers,
    BlockIssuer,
    BlockMode,
    BlockShift,
    ShardMode,
    BlockK,
    ApproxSeed,
    ApproxStarts,
    ApproxPlane,
    ExactSeed,
    ExactStarts,
    ExactPlane,
    /// Behind the blocks. It has no byte, only a test.
    Sharded,
    Trailer,
    Done,
}

/// What is kept of the fields before.
#[derive(Clone, Copy, Debug)]
pub(crate) struct Kept {
    pub(crate) version: u8,
    pub(crate) kind: u8,
    pub(crate) epoch: u64,
    pub(crate) parent: Key32,
    pub(crate) ranges: u16,
    pub(crate) ranges_left: u16,
    pub(crate) issuers: u32,
    /// Blocks that are left, the open one among them.
    pub(crate) left: u32,
    /// The shift of the open block, 0 if it isn't sharded.
    pub(crate) shift: u8,
    /// Leaves of the open block that are left, the open one among them.
    pub(crate) leaves: u16,
    /// Whether a block before the open one is sharded.
    pub(crate) sharded: bool,
    /// Whether an item stands before the open one.
    pub(crate) any: bool,
    /// The log or the issuer of the open item, or before it came that of the item before.
    pub(crate) key: Key32,
    pub(crate) from: u64,
    pub(crate) to: u64,
    /// The mode of the open block, or of its open shard.
    pub(crate) mode: u8,
    /// Planes of the approximate stage that are left, the open one among them.
    pub(crate) planes: u8,
    pub(crate) seed: u8,
    pub(crate) starts: u32,
    pub(crate) trailer: Key32,
}

#[inline(always)]
pub(crate) fn is_front(field: Open) -> bool
    ensures { result ≡ in_front field }
{
    match field {
        Open::Trailer | Open::Done => false,
        _ => true,
    }
}

pub(crate) fn is_done(field: Open) -> bool
    ensures { IsTrue result ↔ field ≡ Open.Done }
{
    match field {
        Open::Done => true,
        _ => false,
    }
}

/// How many bytes of a field are held.
#[inline(always)]
pub(crate) fn tail(field: Open) -> usize
    ensures value { result ≡ tail_of field }
    ensures few { result ≤ TRAILER }
{
    match field {
        Open::Version | Open::Kind | Open::BlockMode | Open::BlockShift => 1,
        Open::ShardMode | Open::BlockK => 1,
        Open::ApproxSeed | Open::ExactSeed => 1,
        Open::Ranges => 2,
        Open::Issuers | Open::ApproxStarts | Open::ExactStarts => 4,
        Open::Magic | Open::Epoch | Open::RangeFrom | Open::RangeTo => 8,
        Open::ApproxPlane | Open::ExactPlane => 8,
        Open::Parent | Open::RangeLog | Open::BlockIssuer | Open::Trailer => 32,
        Open::Sharded | Open::Done => 0,
    }
}

pub(crate) fn name(field: Open) -> Field
    ensures { result ≡ name_of field }
{
    match field {
        Open::Magic => Field::PartMagic,
        Open::Version => Field::PartVersion,
        Open::Kind => Field::PartKind,
        Open::Epoch => Field::PartEpoch,
        Open::Parent => Field::PartParent,
        Open::Ranges => Field::PartRanges,
        Open::RangeLog => Field::RangeLog,
        Open::RangeFrom => Field::RangeFrom,
        Open::RangeTo => Field::RangeTo,
        Open::Issuers => Field::PartIssuers,
        Open::BlockIssuer => Field::BlockIssuer,
        Open::BlockMode => Field::BlockMode,
        Open::BlockShift => Field::BlockShift,
        Open::ShardMode => Field::ShardMode,
        Open::BlockK => Field::BlockK,
        Open::ApproxSeed => Field::ApproxSeed,
        Open::ApproxStarts => Field::ApproxStarts,
        Open::ApproxPlane => Field::ApproxPlane,
        Open::ExactSeed => Field::ExactSeed,
        Open::ExactStarts => Field::ExactStarts,
        Open::ExactPlane => Field::ExactPlane,
        Open::Sharded => Field::PartSharded,
        Open::Trailer => Field::PartTrailer,
        Open::Done => Field::End,
    }
}

/// The kind of a part, by the number of its layout.
pub(crate) fn kind(number: u8) -> Kind
    ensures { result ≡ kind_of number }
{
    match number {
        0 => Kind::Snapshot,
        _ => Kind::Delta,
    }
}

fn is_parent_of(kind: u8, key: Key32) -> bool
    ensures { result ≡ is_parent kind key }
{
    kind == 1 || key == Key32::new([0; 32])
}

#[inline(always)]
pub(crate) fn number8(bytes: &[u8]) -> u8
    requires { length bytes.now ≡ 1 }
    ensures { result ≡ from_be_bytes w8 bytes.now }
{
    u8::from_be_bytes([bytes[0]])
}

fn number16(bytes: &[u8]) -> u16
    requires { length bytes.now ≡ 2 }
    ensures { result ≡ from_be_bytes w16 bytes.now }
{
    u16::from_be_bytes([bytes[0], bytes[1]])
}

#[inline(always)]
fn number32(b: &[u8]) -> u32
    requires { length b.now ≡ 4 }
    ensures { result ≡ from_be_bytes w32 b.now }
{
    u32::from_be_bytes([b[0], b[1], b[2], b[3]])
}

#[inline(always)]
fn number64(b: &[u8]) -> u64
    requires { length b.now ≡ 8 }
    ensures { result ≡ from_be_bytes w64 b.now }
{
    u64::from_be_bytes([b[0], b[1], b[2], b[3], b[4], b[5], b[6], b[7]])
}

/// Whether the log or the issuer is above that of the item before, if there is one.
fn is_above(kept: &Kept, key: &[u8]) -> bool
    ensures { result ≡ is_after (previous kept.now) key.now }
{
    match kept.any {
        true => kept.key.bytes().as_slice().cmp(key).is_lt(),
        false => true,
    }
}

/// Whether the bytes are the digest of all that was hashed.
pub(crate) fn is_digest(hasher: &Sha256, bytes: &[u8]) -> bool
    ensures { (m : List ℕ) → Holds256 hasher.now m → result ≡ bytes_eq (sha256 m) bytes.now }
{
    let copy: Result<Sha256, AllocError> = hasher.clone();
    let sum = copy.unwrap().finalize();
    sum.as_slice() == bytes
}

/// Whether the bits of a plane's last word behind its last column are zero.
#[inline(always)]
pub(crate) fn is_last_padded(starts: u32, last: &[u8]) -> bool
    requires starts { AreStarts starts }
    requires len { length last.now ≡ 8 }
    ensures { result ≡ is_padded_last starts last.now }
{
    let word = number64(last);
    let columns = starts as usize + 127 - 64 * (words_for(starts) - 1);
    u128::from(word) >> columns == 0
}

/// Whether they are zero of each of so many planes, of which these are all bytes.
#[inline(always)]
pub(crate) fn are_padded(starts: u32, count: u8, planes: &[u8]) -> bool
    requires starts { AreStarts starts }
    requires len { length planes.now ≡ count * (8 * words_of starts) }
    ensures { result ≡ true → ArePadded starts count planes.now }
{
    let width = 8 * words_for(starts);
    for plane in 0..count {
        let last = plane as usize * width + (width - 8);
        if !is_last_padded(starts, &planes[last..last + 8]) {
            return false;
        }
    }
    true
}

#[inline(always)]
fn are_starts(starts: u32) -> bool
    ensures { result ≡ true ↔ AreStarts starts }
{
    1 <= starts && starts <= MAX_STARTS
}

fn is_version(version: u8) -> bool
    ensures { result ≡ within 1 2 version }
{
    1 <= version && version <= 2
}

/// Shards stand in version 2 alone.
#[inline(always)]
fn is_mode(version: u8, mode: u8) -> bool
    ensures { result ≡ within 0 (greatest_mode version) mode }
{
    u16::from(mode) <= u16::from(version) + 1
}

fn is_shift(shift: u8) -> bool
    ensures value { result ≡ within 1 MAX_SHIFT shift }
    ensures limits { result ≡ true → IsShift shift }
{
    1 <= shift && shift <= MAX_SHIFT
}

/// Whether the open field passes its test, by those of its bytes that are held.
#[inline(always)]
pub(crate) fn passes(field: Open, kept: &Kept, last: &[u8]) -> bool
    requires front { in_front field ≡ true }
    requires len { length last.now ≡ tail_of field }
    requires starts { AreStarts kept.now.starts }
    ensures exact { (sum : List ℕ) → result ≡ passes_last field kept.now sum last.now }
    ensures limits { result ≡ true → AreLimits field last.now }
{
    match field {
        Open::Magic => b"CLUBCARD".as_slice() == last,
        Open::Version => is_version(number8(last)),
        Open::Kind => number8(last) <= 1,
        Open::Parent => is_parent_of(kept.kind, key_of(last)),
        Open::Ranges => number16(last) <= MAX_RANGES as u16,
        Open::RangeTo => kept.from <= number64(last),
        Open::Issuers => number32(last) <= MAX_BLOCKS,
        Open::RangeLog | Open::BlockIssuer => is_above(kept, last),
        Open::BlockMode => is_mode(kept.version, number8(last)),
        Open::BlockShift => is_shift(number8(last)),
        Open::ShardMode => number8(last) <= 2,
        Open::BlockK => number8(last) <= MAX_PLANES,
        Open::ApproxStarts | Open::ExactStarts => are_starts(number32(last)),
        Open::ApproxPlane | Open::ExactPlane => is_last_padded(kept.starts, last),
        Open::Epoch | Open::RangeFrom | Open::ApproxSeed | Open::ExactSeed => true,
        Open::Sharded => kept.version == 1 || kept.sharded,
        Open::Trailer | Open::Done => false,
    }
}

fn keep_ranges(kept: &mut Kept, count: u16)
    ensures { kept.new ≡ kept_ranges kept.old count }
{
    kept.ranges = count;
    kept.ranges_left = count;
    kept.any = false;
}

fn keep_range(kept: &mut Kept, to: u64)
    ensures { kept.new ≡ kept_range (record kept.old { to = to }) }
{
    kept.to = to;
    kept.ranges_left = kept.ranges_left.saturating_sub(1);
    kept.any = true;
}

fn keep_issuers(kept: &mut Kept, count: u32)
    ensures { kept.new ≡ kept_issuers kept.old count }
{
    kept.issuers = count;
    kept.left = count;
    kept.any = false;
    kept.sharded = false;
}

/// Of the approximate stage one plane fewer is left.
#[inline(always)]
fn keep_plane(kept: &mut Kept)
    ensures { kept.new ≡ record kept.old { planes = kept.old.planes - 1 } }
{
    kept.planes = kept.planes.saturating_sub(1);
}

/// Behind the last leaf of a block the block is whole.
#[inline(always)]
pub(crate) fn keep_leaf(kept: &mut Kept)
    ensures { kept.new ≡ kept_leaf kept.old }
{
    kept.leaves = kept.leaves.saturating_sub(1);
    match kept.leaves {
        0 => {
            kept.left = kept.left.saturating_sub(1);
            kept.any = true;
            kept.sharded = kept.sharded || kept.shift > 0;
        }
        _ => {}
    }
}

/// The leaf of a shard, or the one of a block.
#[inline(always)]
fn keep_leaf_mode(kept: &mut Kept, mode: u8)
    ensures { kept.new ≡ kept_leaf_mode mode kept.old }
{
    match mode {
        0 => {
            kept.mode = 0;
            keep_leaf(kept);
        }
        1 => {
            kept.mode = 1;
            keep_leaf(kept);
        }
        _ => kept.mode = 2,
    }
}

#[inline(always)]
fn keep_mode(kept: &mut Kept, mode: u8)
    ensures { kept.new ≡ kept_mode mode kept.old }
{
    kept.shift = 0;
    kept.leaves = 1;
    match mode {
        0 => keep_leaf_mode(kept, 0),
        1 => keep_leaf_mode(kept, 1),
        2 => keep_leaf_mode(kept, 2),
        _ => kept.mode = 3,
    }
}

fn keep_shift(kept: &mut Kept, shift: u8)
    requires { shift ≤ MAX_SHIFT }
    ensures { kept.new ≡ kept_shift kept.old shift }
{
    kept.shift = shift;
    kept.leaves = 1 << shift;
}

/// Keeps what the open field tells of those behind it.
#[inline(always)]
pub(crate) fn keep(kept: &mut Kept, field: Open, last: &[u8])
    requires len { length last.now ≡ tail_of field }
    requires limits { AreLimits field last.now }
    ensures { kept.new ≡ kept_after field kept.old last.now }
{
    match field {
        Open::Version => kept.version = number8(last),
        Open::Kind => kept.kind = number8(last),
        Open::Epoch => kept.epoch = number64(last),
        Open::Parent => kept.parent = key_of(last),
        Open::Ranges => keep_ranges(kept, number16(last)),
        Open::RangeLog | Open::BlockIssuer => kept.key = key_of(last),
        Open::RangeFrom => kept.from = number64(last),
        Open::RangeTo => keep_range(kept, number64(last)),
        Open::Issuers => keep_issuers(kept, number32(last)),
        Open::BlockMode => keep_mode(kept, number8(last)),
        Open::BlockShift => keep_shift(kept, number8(last)),
        Open::ShardMode => keep_leaf_mode(kept, number8(last)),
        Open::BlockK => kept.planes = number8(last),
        Open::ApproxSeed | Open::ExactSeed => kept.seed = number8(last),
        Open::ApproxStarts | Open::ExactStarts => kept.starts = number32(last),
        Open::ApproxPlane => keep_plane(kept),
        Open::ExactPlane => keep_leaf(kept),
        Open::Trailer => kept.trailer = key_of(last),
        Open::Magic | Open::Sharded | Open::Done => {}
    }
}

fn at_range(left: u16) -> Open
    ensures { result ≡ open_range left }
{
    match left {
        0 => Open::Issuers,
        _ => Open::RangeLog,
    }
}

#[inline(always)]
fn at_block(left: u32) -> Open
    ensures { result ≡ open_block left }
{
    match left {
        0 => Open::Sharded,
        _ => Open::BlockIssuer,
    }
}

#[inline(always)]
pub(crate) fn at_leaf(leaves: u16, left: u32) -> Open
    ensures { result ≡ open_leaf leaves left }
{
    match leaves {
        0 => at_block(left),
        _ => Open::ShardMode,
    }
}

#[inline(always)]
fn at_mode(kept: &Kept) -> Open
    ensures { result ≡ open_mode kept.now.mode kept.now.leaves kept.now.left }
{
    match kept.mode {
        0 => at_leaf(kept.leaves, kept.left),
        1 => at_leaf(kept.leaves, kept.left),
        2 => Open::BlockK,
        _ => Open::BlockShift,
    }
}

#[inline(always)]
fn at_approx(planes: u8) -> Open
    ensures { result ≡ open_approx planes }
{
    match planes {
        0 => Open::ExactSeed,
        _ => Open::ApproxSeed,
    }
}

#[inline(always)]
fn at_plane(planes: u8) -> Open
    ensures { result ≡ open_plane planes }
{
    match planes {
        0 => Open::ExactSeed,
        _ => Open::ApproxPlane,
    }
}

/// The field behind one, by what is kept then.
#[inline(always)]
pub(crate) fn next_of(field: Open, kept: &Kept) -> Open
    ensures { result ≡ open_after field kept.now }
{
    match field {
        Open::Magic => Open::Version,
        Open::Version => Open::Kind,
        Open::Kind => Open::Epoch,
        Open::Epoch => Open::Parent,
        Open::Parent => Open::Ranges,
        Open::Ranges | Open::RangeTo => at_range(kept.ranges_left),
        Open::RangeLog => Open::RangeFrom,
        Open::RangeFrom => Open::RangeTo,
        Open::Issuers => at_block(kept.left),
        Open::BlockIssuer => Open::BlockMode,
        Open::BlockMode | Open::ShardMode => at_mode(kept),
        Open::BlockShift => Open::ShardMode,
        Open::BlockK => at_approx(kept.planes),
        Open::ApproxSeed => Open::ApproxStarts,
        Open::ApproxStarts | Open::ApproxPlane => at_plane(kept.planes),
        Open::ExactSeed => Open::ExactStarts,
        Open::ExactStarts => Open::ExactPlane,
        Open::ExactPlane => at_leaf(kept.leaves, kept.left),
        Open::Sharded => Open::Trailer,
        Open::Trailer | Open::Done => Open::Done,
    }
}

/// How many bytes of the field pass before those that are held.
#[inline(always)]
pub(crate) fn skips(field: Open, kept: &Kept) -> usize
    requires { AreStarts kept.now.starts }
    ensures { result ≡ skips_of field kept.now }
{
    match field {
        Open::ApproxPlane | Open::ExactPlane => 8 * (words_for(kept.starts) - 1),
        _ => 0,
    }
}
