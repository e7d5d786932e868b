//! The records of a job, counted.

ghost use Rattle.gather_core.specs.Opened.{Counts};

use job_core::{JobFault, JobRecords, Limits};

/// The epoch of a job, and how many of its records are ranges and entries.
#[derive(Clone, Copy, Debug)]
pub struct Tally {
    pub epoch: u64,
    pub ranges: u64,
    pub entries: u64,
}

/// What the job of the bytes counts, within these limits; or why they are no job. No memory is taken.
pub fn count_records(bytes: &[u8], limits: Limits) -> Result<Tally, JobFault>
    ensures { Counts limits bytes.now result }
{
    let (mut records, epoch) = JobRecords::new(bytes, limits)?;
    loop {
        match records.next() {
            Ok(Some(_)) => {}
            Ok(None) => {
                return Ok(Tally {
                    epoch,
                    ranges: records.ranges(),
                    entries: records.entries(),
                });
            }
            Err(fault) => return Err(fault),
        }
    }
}
