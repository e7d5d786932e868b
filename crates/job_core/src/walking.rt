//! The records of a job whose bytes stand in memory.

ghost use Rattle.std.specs.Prelude.{◌≡◌, ◌<◌, ◌≤◌, ◌^◌, ℕ, List, [], length, take, Err, IfErr, IfOk, IfSome};
ghost use Rattle.job_core.specs.JobLayout.{JobTexts, job};
ghost use Rattle.job_core.specs.Reader.{no_serials};
ghost use Rattle.job_core.specs.Walks.{HasRead, ReadsOne, place_in, left_of, ranges_read, entries_read};

use crate::bounds::Limits;
use crate::fault::JobFault;
use crate::partial::{Numbers, no_numbers};
use crate::record_texts::{RecordText, read_opening, read_record};
use octets_core::{Cursor, read_end};

/// Reads a job's records one by one, as they stand in its bytes. CRLs and entries aren't read, and no memory is taken.
#[derive(Drop)]
pub struct JobRecords<'a> {
    cursor: Cursor<'a>,
    limits: Limits,
    numbers: Numbers,
}

impl<'a> JobRecords<'a> {
    /// Reads what stands before the records: the epoch, which is answered, and the moment.
    pub fn new(bytes: &'a [u8], limits: Limits) -> Result<(JobRecords<'a>, u64), JobFault>
        ensures ok { IfOk result (λ r. (t : JobTexts) × HasRead limits r.0 bytes.now t × (t.items ≡ []) × (t.epoch ≡ r.1)) }
        ensures err { IfErr result (λ e. job no_serials limits bytes.now 0 ≡ Err e) }
    {
        let mut cursor = Cursor::new(bytes);
        let (epoch, _) = read_opening(&mut cursor)?;
        let records = JobRecords {
            cursor,
            limits,
            numbers: no_numbers(),
        };
        Ok((records, epoch))
    }

    /// The next record, or none where the records end, and the bytes with them. An `Err` is the job's first fault.
    pub fn next(&mut self) -> Result<Option<RecordText<'a>>, JobFault>
        ensures { (limits : Limits) (bytes : List ℕ) (t : JobTexts)
            → HasRead limits self.old bytes t → ReadsOne limits self.new bytes t result }
    {
        match read_record(&mut self.cursor, &self.limits, &mut self.numbers) {
            Ok(Some(text)) => Ok(Some(text)),
            Ok(None) => match read_end(&mut self.cursor) {
                Ok(()) => Ok(None),
                Err(fault) => Err(JobFault::Layout(fault)),
            },
            Err(fault) => Err(fault),
        }
    }

    /// The bytes that were passed.
    pub fn passed(&self) -> &'a [u8]
        ensures { (limits : Limits) (bytes : List ℕ) (t : JobTexts) → HasRead limits self.now bytes t
            → result.now ≡ take (place_in self.now) bytes }
    {
        self.cursor.passed()
    }

    /// How many ranges were read.
    pub fn ranges(&self) -> u64
        ensures value { result ≡ ranges_read self.now }
        ensures few { result < 2 ^ 32 }
    {
        self.numbers.ranges as u64
    }

    /// How many entries were read.
    pub fn entries(&self) -> u64
        ensures { result ≡ entries_read self.now }
    {
        self.numbers.entries as u64
    }
}
