//! Entries as they stand, to be put behind those of a job.

ghost use Rattle.std.specs.Prelude.{◌≡◌, ◌++◌, ◌≤◌, length, map, All};
ghost use Rattle.std.specs.Prelude.{Ok, Err, IfOk, IfErr, OnOk};
ghost use Rattle.job_core.specs.JobText.{JobContents, entry_record};
ghost use Rattle.gather_core.specs.Pages.{EntryFits, fields_of};
ghost use Rattle.gather_core.specs.Opened.{Holds, records_of};
ghost use Rattle.gather_core.specs.Raw.{of_log, piece_limits, raw_job};

use crate::counting::count_records;
use crate::page::PageEntry;
use job_core::{JobFault, Limits};
use octets_core::{Key32, NoMemory, put_bytes, put_u8, put_u24};
use std::alloc::Global;

/// How many bytes stand before the records of a job, and in the record of a range.
const OPENING: usize = 24;

const RANGE: usize = 49;

/// The records of entries, one behind the other from a place of the text on, and how many they are.
#[derive(Debug, Drop)]
pub struct EntryTexts {
    text: Vec<u8>,
    start: usize,
    count: u64,
}

/// A job without CRLs: its epoch and its entries, as they stand.
#[derive(Debug, Drop)]
pub struct Piece {
    pub epoch: u64,
    pub entries: EntryTexts,
}

/// Puts an entry of a log behind a text.
fn put_entry(text: &mut Vec<u8>, log: &Key32, entry: &PageEntry) -> Result<(), NoMemory>
    requires { EntryFits (fields_of entry.now) }
    ensures { OnOk result (text.new.items ≡ text.old.items ++ entry_record (of_log log.now (fields_of entry.now))) }
{
    put_u8(text, 3)?;
    put_bytes(text, log.bytes())?;
    put_u24(text, entry.leaf.len() as u32)?;
    put_bytes(text, entry.leaf.as_slice())?;
    put_u24(text, entry.extra.len() as u32)?;
    put_bytes(text, entry.extra.as_slice())
}

impl EntryTexts {
    /// The entries of a page of the log with this id.
    pub fn of_page(
        alloc: Global,
        log: &Key32,
        entries: &[PageEntry],
    ) -> Result<EntryTexts, NoMemory>
        requires { All EntryFits (map fields_of entries.now) }
        ensures { IfOk result (λ t. Holds t (map (of_log log.now) (map fields_of entries.now))) }
    {
        // What the type says of the key; the call does no more than bring it.
        let _ = log.bytes();
        let mut text = Vec::new(alloc);
        for entry in entries {
            put_entry(&mut text, log, entry)?;
        }
        Ok(EntryTexts {
            text,
            start: 0,
            count: entries.len() as u64,
        })
    }

    /// Their records.
    pub(crate) fn records(&self) -> &[u8]
        ensures { result.now ≡ records_of self.now }
    {
        self.text.get(self.start..).unwrap_or(&[])
    }

    /// How many there are.
    pub fn count(&self) -> u64
        ensures { result ≡ self.now.count }
    {
        self.count
    }
}

/// The limits of a piece: those that are published, with no CRL.
fn piece_limits() -> Limits
    ensures { result ≡ piece_limits }
{
    Limits {
        crls: 0,
        ..Limits::PUBLISHED
    }
}

/// The piece that the bytes are, a job without CRLs; or the first fault in their order, as `OpenJob::new` answers it. No
/// memory is taken.
pub fn read_piece(bytes: Vec<u8>) -> Result<Piece, JobFault>
    ensures ok { IfOk result (λ p. (j : JobContents) × (raw_job piece_limits bytes.items ≡ Ok j)
        × (p.epoch ≡ j.epoch) × Holds p.entries j.entries) }
    ensures err { IfErr result (λ e. raw_job piece_limits bytes.items ≡ Err e) }
{
    let tally = count_records(&bytes, piece_limits())?;
    let mut text = bytes;
    let _ = text.pop();
    Ok(Piece {
        epoch: tally.epoch,
        entries: EntryTexts {
            text,
            start: OPENING + RANGE * tally.ranges as usize,
            count: tally.entries,
        },
    })
}
