//! Parts that are scanned where they stand in a store, one after the other, each held to the one before it.

ghost use Rattle.std.specs.Prelude.{◌≡◌, ℕ, List, [], ◌∷◌, ◌≤◌, ◌<◌, ◌+◌, ◌-◌, ◌^◌, length, drop, Some, IfOk, IfErr};
ghost use Rattle.ident_core.specs.Coverage.{first_outside};
ghost use Rattle.ident_core.specs.declared.bounds.TheConstants.{MAX_PARTS};
ghost use Rattle.part_text.specs.SealedFields.{SealedFields};
ghost use Rattle.part_text.specs.PartLayout.{sealed};
ghost use Rattle.part_codec.specs.Noting.{noted};
ghost use Rattle.store_core.specs.Chain.{newest_of, broken, refusal_of};
ghost use Rattle.view_core.specs.Checking.{store_head, ReadsParts};
ghost use Rattle.view_core.specs.Scanning.{IsReadAt, ReadsPart, ReadsFirst, ReadsChain, end_of as end_of_read};

use crate::layout::PART_HEAD;
use crate::ranges::{RangesAt, first_outside_at};
use crate::reading::key_at;
use ident_core::{Kind, MAX_PARTS};
use octets_core::{Cursor, Field, Key32, LayoutFault, read_magic, read_u8};
use part_codec::{PartNote, PartScan};
use store_core::{Refusal, StoreFault};

/// The bytes of a part before its parent.
const PARENT: usize = 18;

/// A part that was scanned, and where it begins.
#[derive(Clone, Copy, Debug)]
pub(crate) struct ReadPart {
    pub note: PartNote,
    pub at: usize,
}

/// What is noted of the part that the bytes begin with.
pub(crate) fn noted_in(bytes: &[u8]) -> Result<PartNote, LayoutFault>
    ensures { result ≡ noted (sealed bytes.now 0) }
{
    let mut scan = PartScan::new();
    scan.feed(bytes)?;
    scan.finish()
}

/// The part that stands at this place.
fn part_at(bytes: &[u8], at: usize) -> Result<ReadPart, StoreFault>
    requires { at ≤ length bytes.now }
    ensures part { ReadsPart bytes.now at result }
    ensures place { IfOk result (λ read. read.at ≡ at) }
    ensures within { IfOk result (λ read. end_of_read read ≤ length bytes.now) }
{
    match noted_in(&bytes[at..]) {
        Ok(note) => Ok(ReadPart { note, at }),
        Err(fault) => Err(StoreFault::Layout(LayoutFault {
            at: at as u64 + fault.at,
            field: fault.field,
            why: fault.why,
        })),
    }
}

/// Where the ranges of a part stand.
fn ranges_of(read: &ReadPart) -> RangesAt
    requires { read.now.at < 2 ^ 63 }
    ensures value { result ≡ record { at = read.now.at + PART_HEAD; count = read.now.note.ranges } }
    ensures few { result.count < 2 ^ 16 }
{
    RangesAt {
        at: read.at + PART_HEAD,
        count: read.note.ranges as usize,
    }
}

/// The log of the first range of the part that is held that lies in none of those of the one that is given. Each part
/// stands in bytes of its own.
fn log_outside(
    held_bytes: &[u8],
    held: &ReadPart,
    given_bytes: &[u8],
    given: &ReadPart,
) -> Option<Key32>
    requires held_place { held.now.at < 2 ^ 32 }
    requires given_place { given.now.at < 2 ^ 32 }
    ensures { (h g : SealedFields) → IsReadAt held_bytes.now held.now h → IsReadAt given_bytes.now given.now g
        → result ≡ first_outside h.part.head.ranges g.part.head.ranges }
{
    first_outside_at(held_bytes, ranges_of(held), given_bytes, ranges_of(given))
}

/// Why a delta doesn't follow the part that is held.
fn broken_delta(
    held_bytes: &[u8],
    held: &ReadPart,
    given_bytes: &[u8],
    given: &ReadPart,
) -> Option<Refusal>
    requires held_place { held.now.at < 2 ^ 32 }
    requires given_place { given.now.at < 2 ^ 32 }
    ensures { (h g : SealedFields) → IsReadAt held_bytes.now held.now h → IsReadAt given_bytes.now given.now g
        → g.part.head.kind ≡ Kind.Delta → result ≡ broken h g }
{
    let parent = key_at(given_bytes, given.at + PARENT);
    if held.note.trailer != parent {
        return Some(Refusal::WrongParent {
            held: held.note.trailer,
            given: parent,
        });
    }
    if given.note.epoch <= held.note.epoch {
        return Some(Refusal::OldEpoch {
            held: held.note.epoch,
            given: given.note.epoch,
        });
    }
    match log_outside(held_bytes, held, given_bytes, given) {
        Some(log) => Some(Refusal::CoverageShrinks { log }),
        None => None,
    }
}

/// Why the part that is given doesn't follow the one that is held.
fn broken_by(
    held_bytes: &[u8],
    held: &ReadPart,
    given_bytes: &[u8],
    given: &ReadPart,
) -> Option<Refusal>
    requires held_place { held.now.at < 2 ^ 32 }
    requires given_place { given.now.at < 2 ^ 32 }
    ensures { (h g : SealedFields) → IsReadAt held_bytes.now held.now h → IsReadAt given_bytes.now given.now g
        → result ≡ broken h g }
{
    match given.note.kind {
        Kind::Snapshot => Some(Refusal::NotDelta),
        Kind::Delta => broken_delta(held_bytes, held, given_bytes, given),
    }
}

/// Why so many parts, of which the newest is held, don't take the part that is given.
pub(crate) fn refusal_by(
    held_bytes: &[u8],
    held: &ReadPart,
    given_bytes: &[u8],
    given: &ReadPart,
    count: usize,
) -> Option<Refusal>
    requires held_place { held.now.at < 2 ^ 32 }
    requires given_place { given.now.at < 2 ^ 32 }
    ensures { (parts : List SealedFields) (h g : SealedFields) → newest_of parts ≡ Some h → length parts ≡ count
        → IsReadAt held_bytes.now held.now h → IsReadAt given_bytes.now given.now g
        → result ≡ refusal_of parts g }
{
    let full = (count >= MAX_PARTS).then_some(Refusal::Full);
    broken_by(held_bytes, held, given_bytes, given).or(full)
}

/// The first part of a store, which stands at this place.
fn first_at(bytes: &[u8], at: usize) -> Result<ReadPart, StoreFault>
    requires { at ≤ length bytes.now }
    ensures part { ReadsFirst bytes.now at result }
    ensures within { IfOk result (λ read. end_of_read read ≤ length bytes.now) }
{
    let read = part_at(bytes, at)?;
    match read.note.kind {
        Kind::Snapshot => Ok(read),
        Kind::Delta => Err(StoreFault::NotSnapshot),
    }
}

/// The last of so many parts that stand behind one.
fn last_behind(bytes: &[u8], first: ReadPart, count: u8) -> Result<ReadPart, StoreFault>
    requires few { length bytes.now < 2 ^ 32 }
    requires within { end_of_read first ≤ length bytes.now }
    ensures chain { (s : SealedFields) → IsReadAt bytes.now first s → ReadsChain count (s ∷ []) bytes.now (end_of_read first) result }
    ensures within { IfOk result (λ read. end_of_read read ≤ length bytes.now) }
{
    let mut held = first;
    for i in 0..count {
        let given = part_at(bytes, held.at + held.note.length as usize)?;
        match refusal_by(bytes, &held, bytes, &given, i as usize + 1) {
            Some(why) => return Err(StoreFault::Refused(why)),
            None => held = given,
        }
    }
    Ok(held)
}

/// How many parts a store has, and where the first begins.
#[tactic(auto, unfolding(crate::specs::Checking::store_head))]
fn count_in(bytes: &[u8]) -> Result<(u8, usize), LayoutFault>
    ensures head { result ≡ store_head bytes.now 0 }
    ensures few { IfOk result (λ x. (1 ≤ x.0) × (x.0 ≤ MAX_PARTS) × (x.1 ≤ length bytes.now)) }
{
    let mut cursor = Cursor::new(bytes);
    read_magic(&mut cursor, Field::StoreMagic, b"CLUBSTOR")?;
    read_u8(&mut cursor, Field::StoreVersion, 1, 1)?;
    let count = read_u8(&mut cursor, Field::StoreCount, 1, MAX_PARTS as u8)?;
    Ok((count, cursor.at()))
}

/// The newest part of the store that the bytes begin with, behind how many parts there are.
pub(crate) fn newest_in(bytes: &[u8]) -> Result<(u8, ReadPart), StoreFault>
    requires { length bytes.now < 2 ^ 32 }
    ensures parts { ReadsParts bytes.now result }
    ensures within { IfOk result (λ x. end_of_read x.1 ≤ length bytes.now) }
{
    let (count, at) = match count_in(bytes) {
        Ok(head) => head,
        Err(fault) => return Err(StoreFault::Layout(fault)),
    };
    let first = first_at(bytes, at)?;
    let last = last_behind(bytes, first, count - 1)?;
    Ok((count, last))
}
