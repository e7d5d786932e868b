//! What is told of stores that are opened, of parts and of stores with a further part, in the layout of C.

ghost use Rattle.std.specs.Prelude.{◌≡◌, Ok};
ghost use Rattle.lending_core.specs.Facts.{field_number as number_of_field, field_of, told_lent, told_only};
ghost use Rattle.lending_core.specs.Facts.{told_open, told_install};
ghost use Rattle.lending_core.specs.Facts.{opened_facts, opened_number, part_facts, part_number};
ghost use Rattle.lending_core.specs.Facts.{install_facts, install_number, kind_number as number_of_kind};

use crate::fault::LentFault;
use crate::numbers;
use crate::replies::fault_answer;
use ident_core::Kind;
use octets_core::{Field, LayoutFault};
use part_codec::PartNote;
use view_core::{InstallFault, OpenFault, Opened};

/// How many bytes `OpenedFacts` has.
pub const OPENED_SIZE: u64 = 48;
/// How many bytes `PartFacts` has.
pub const PART_SIZE: u64 = 88;
/// How many bytes `InstallFacts` has.
pub const INSTALL_SIZE: u64 = 32;

/// What is told of a store that is opened.
#[repr(C)]
#[derive(Clone, Copy, Debug, PartialEq, Eq)]
pub struct OpenedFacts {
    /// How many bytes this struct has, which the caller says.
    pub size: u64,
    /// How many parts the store has.
    pub parts: u64,
    /// The epoch of the newest one.
    pub newest_epoch: u64,
    /// How many words the index has, or must have.
    pub index_len: u64,
    /// Where a field of the store is at fault, the offset of its first byte; else 0.
    pub at: u64,
    /// The number of this field; else 0.
    pub field: u64,
}

/// What is told of a part.
#[repr(C)]
#[derive(Clone, Copy, Debug, PartialEq, Eq)]
pub struct PartFacts {
    /// How many bytes this struct has, which the caller says.
    pub size: u64,
    /// 0 of a snapshot, 1 of a delta.
    pub kind: u64,
    /// The part's epoch.
    pub epoch: u64,
    /// How many ranges it has.
    pub ranges: u64,
    /// How many issuers it has.
    pub issuers: u64,
    /// Where a field of the part is at fault, the offset of its first byte; else 0.
    pub at: u64,
    /// The number of this field; else 0.
    pub field: u64,
    /// The part's last 32 bytes, which name it.
    pub trailer: [u8; 32],
}

/// What is told of a store with a further part.
#[repr(C)]
#[derive(Clone, Copy, Debug, PartialEq, Eq)]
pub struct InstallFacts {
    /// How many bytes this struct has, which the caller says.
    pub size: u64,
    /// How many bytes the new store has, or needs.
    pub length: u64,
    /// Where a field of the store or of the part is at fault, the offset of its first byte; else 0.
    pub at: u64,
    /// The number of this field; else 0.
    pub field: u64,
}

/// What is told of a fault.
#[derive(Clone, Copy, Debug)]
pub(crate) struct Told {
    /// One of `numbers`.
    pub number: u32,
    /// Where a field is at fault, the offset of its first byte; else 0.
    pub at: u64,
    /// The number of this field; else 0.
    pub field: u64,
    /// How many words or bytes are wanted, where there are fewer; else 0.
    pub wanted: u64,
}

/// The number of a field: 1 and its place among the fields, of one that stands in a store or a part; else 0.
fn field_number(field: Field) -> u64
    ensures { result ≡ number_of_field field }
{
    match field {
        Field::PartMagic => 1,
        Field::PartVersion => 2,
        Field::PartKind => 3,
        Field::PartEpoch => 4,
        Field::PartParent => 5,
        Field::PartRanges => 6,
        Field::RangeLog => 7,
        Field::RangeFrom => 8,
        Field::RangeTo => 9,
        Field::PartIssuers => 10,
        Field::BlockIssuer => 11,
        Field::BlockMode => 12,
        Field::BlockK => 13,
        Field::BlockShift => 14,
        Field::ShardMode => 15,
        Field::ApproxSeed => 16,
        Field::ApproxStarts => 17,
        Field::ApproxPlane => 18,
        Field::ExactSeed => 19,
        Field::ExactStarts => 20,
        Field::ExactPlane => 21,
        Field::PartSharded => 22,
        Field::PartTrailer => 23,
        Field::StoreMagic => 24,
        Field::StoreVersion => 25,
        Field::StoreCount => 26,
        Field::LedgerMagic => 0,
        Field::LedgerVersion => 0,
        Field::LedgerParts => 0,
        Field::LedgerEpoch => 0,
        Field::LedgerPartTrailer => 0,
        Field::LedgerRanges => 0,
        Field::LedgerCoverage => 0,
        Field::LedgerIssuers => 0,
        Field::LedgerIssuer => 0,
        Field::LedgerIdentities => 0,
        Field::IdentityIssuer => 0,
        Field::IdentityLength => 0,
        Field::IdentitySerial => 0,
        Field::IdentityBirth => 0,
        Field::IdentityLast => 0,
        Field::IdentityDated => 0,
        Field::IdentityUntil => 0,
        Field::LedgerDigest => 0,
        Field::JobMagic => 0,
        Field::JobEpoch => 0,
        Field::JobMoment => 0,
        Field::RecordKind => 0,
        Field::CrlIssuer => 0,
        Field::CrlLength => 0,
        Field::CrlBytes => 0,
        Field::EntryLog => 0,
        Field::EntryLeafLength => 0,
        Field::EntryLeaf => 0,
        Field::EntryExtraLength => 0,
        Field::EntryExtra => 0,
        Field::QueryMagic => 0,
        Field::QueryCount => 0,
        Field::QueryIssuer => 0,
        Field::QueryLength => 0,
        Field::QuerySerial => 0,
        Field::QuerySightings => 0,
        Field::SightingLog => 0,
        Field::SightingTime => 0,
        Field::End => 65,
    }
}

/// The number of the field that is at fault, or 0.
fn field_at_fault(fault: &LentFault) -> u64
    ensures { result ≡ field_of fault.now }
{
    match fault {
        LentFault::Layout(fault) => field_number(fault.field),
        _ => 0,
    }
}

fn lent_told(fault: LentFault) -> Told
    ensures { result ≡ told_lent fault }
{
    let field = field_at_fault(&fault);
    let answer = fault_answer(fault);
    Told {
        number: answer.number,
        at: answer.at,
        field,
        wanted: 0,
    }
}

/// Of this number alone.
fn only(number: u32, wanted: u64) -> Told
    ensures { result ≡ told_only number wanted }
{
    Told {
        number,
        at: 0,
        field: 0,
        wanted,
    }
}

fn open_told(fault: OpenFault) -> Told
    ensures { result ≡ told_open fault }
{
    match fault {
        OpenFault::TooLong => only(numbers::STORE_TOO_LONG, 0),
        OpenFault::Store(fault) => lent_told(LentFault::from(fault)),
        OpenFault::IndexTooShort { wanted } => only(numbers::INDEX_TOO_SHORT, wanted as u64),
    }
}

fn install_told(fault: InstallFault) -> Told
    ensures { result ≡ told_install fault }
{
    match fault {
        InstallFault::TooLong => only(numbers::STORE_TOO_LONG, 0),
        InstallFault::Store(fault) => lent_told(LentFault::from(fault)),
        InstallFault::Part(fault) => lent_told(LentFault::Layout(fault)),
        InstallFault::Refused(why) => lent_told(LentFault::Chain(why)),
        InstallFault::RoomTooShort { wanted } => only(numbers::ROOM_TOO_SHORT, wanted as u64),
    }
}

/// Writes what is told of a store that was opened, or wasn't.
pub(crate) fn tell_opened(outcome: Result<Opened, OpenFault>, facts: &mut OpenedFacts) -> u32
    ensures number { result ≡ opened_number outcome }
    ensures facts { facts.new ≡ opened_facts outcome }
{
    match outcome {
        Ok(opened) => {
            *facts = OpenedFacts {
                size: OPENED_SIZE,
                parts: u64::from(opened.note.parts),
                newest_epoch: opened.note.newest_epoch,
                index_len: opened.words as u64,
                at: 0,
                field: 0,
            };
            numbers::DONE
        }
        Err(fault) => {
            let told = open_told(fault);
            *facts = OpenedFacts {
                size: OPENED_SIZE,
                parts: 0,
                newest_epoch: 0,
                index_len: told.wanted,
                at: told.at,
                field: told.field,
            };
            told.number
        }
    }
}

fn kind_number(kind: Kind) -> u64
    ensures { result ≡ number_of_kind kind }
{
    match kind {
        Kind::Snapshot => 0,
        Kind::Delta => 1,
    }
}

/// What is told of the part that bytes are.
fn facts_of_part(note: PartNote) -> PartFacts
    ensures { result ≡ part_facts (Ok note) }
{
    PartFacts {
        size: PART_SIZE,
        kind: kind_number(note.kind),
        epoch: note.epoch,
        ranges: u64::from(note.ranges),
        issuers: u64::from(note.issuers),
        at: 0,
        field: 0,
        trailer: *note.trailer.bytes(),
    }
}

/// Writes what is told of the part that bytes are, or aren't.
pub(crate) fn tell_part(outcome: Result<PartNote, LayoutFault>, facts: &mut PartFacts) -> u32
    ensures number { result ≡ part_number outcome }
    ensures facts { facts.new ≡ part_facts outcome }
{
    match outcome {
        Ok(note) => {
            *facts = facts_of_part(note);
            numbers::DONE
        }
        Err(fault) => {
            let told = lent_told(LentFault::Layout(fault));
            *facts = PartFacts {
                size: PART_SIZE,
                kind: 0,
                epoch: 0,
                ranges: 0,
                issuers: 0,
                at: told.at,
                field: told.field,
                trailer: [0; 32],
            };
            told.number
        }
    }
}

/// Writes what is told of a store with a further part, or of why there is none.
pub(crate) fn tell_install(outcome: Result<usize, InstallFault>, facts: &mut InstallFacts) -> u32
    ensures number { result ≡ install_number outcome }
    ensures facts { facts.new ≡ install_facts outcome }
{
    match outcome {
        Ok(length) => {
            *facts = InstallFacts {
                size: INSTALL_SIZE,
                length: length as u64,
                at: 0,
                field: 0,
            };
            numbers::DONE
        }
        Err(fault) => {
            let told = install_told(fault);
            *facts = InstallFacts {
                size: INSTALL_SIZE,
                length: told.wanted,
                at: told.at,
                field: told.field,
            };
            told.number
        }
    }
}
