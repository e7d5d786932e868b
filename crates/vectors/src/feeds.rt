//! The records of jobs, one by one off a feed.

use crate::entries::put_fault;
use job_core::{JobFault, JobReader, Limits, RawJob, Record, job_fits, write_job};
use outside_core::{Depot, Failed, Feed};
use play_core::Faults;
use std::alloc::Global;
use std::fmt::Write;
use std::test::Fail;

/// A file of which a read gives so many bytes at most, and one read fails. Contracts aren't told what it holds.
#[derive(Drop)]
struct Slow<'a> {
    bytes: &'a [u8],
    faults: Faults,
    made: u64,
    failed: u64,
}

impl<'a> Depot for Slow<'a> {
    ghost use Rattle.std.specs.Prelude.{None};

    ghost files = { λ _. None };

    ghost read_faults = { λ d. d.failed };

    ghost failed_reads = { λ _. None };

    ghost write_faults = { λ _. 0 };

    fn read_at(&mut self, _name: &str, at: u64, buf: &mut [u8]) -> Result<usize, Failed> {
        let number = self.made;
        self.made = number.saturating_add(1);
        if number == self.faults.read {
            self.failed = self.failed.saturating_add(1);
            return Err(Failed);
        }
        let rest = self.bytes.get(at as usize..).unwrap_or(&[]);
        let count = rest.len().min(buf.len()).min(self.faults.most);
        buf[..count].copy_from_slice(&rest[..count]);
        Ok(count)
    }

    fn begin(&mut self, _name: &str) -> Result<(), Failed> {
        Ok(())
    }

    fn append(&mut self, _name: &str, bytes: &[u8]) -> Result<usize, Failed> {
        Ok(bytes.len())
    }
}

fn next_record(reader: &mut JobReader, feed: &mut Feed<'_, Slow<'_>>) -> Result<Record, JobFault> {
    reader.next(feed)
}

/// Puts a record behind the others of its kind, and answers its kind.
fn put_record(job: &mut RawJob, record: Record) -> Result<&'static str, Fail> {
    Ok(match record {
        Record::Begin { epoch, moment } => {
            job.epoch = epoch;
            job.moment = moment;
            " begin"
        }
        Record::Range(range) => {
            job.ranges.push(range)?;
            " range"
        }
        Record::Crl(crl) => {
            job.crls.push(crl)?;
            " crl"
        }
        Record::Entry(entry) => {
            job.entries.push(entry)?;
            " entry"
        }
        Record::End => " end",
    })
}

/// What a reader of the file's records answers when it is asked so often, and the job of the records that it gave,
/// written again. The reads are counted.
pub fn tell_records(
    alloc: Global,
    bytes: &[u8],
    asked: u32,
    faults: Faults,
    reads: &mut u64,
) -> Result<String, Fail> {
    let mut text = String::from_str(alloc, "records")?;
    let mut file = Slow {
        bytes,
        faults,
        made: 0,
        failed: 0,
    };
    let mut feed = Feed::new(&mut file, "");
    let mut reader = JobReader::new(alloc, Limits::PUBLISHED);
    let mut job = RawJob {
        epoch: 0,
        moment: 0,
        ranges: Vec::new(alloc),
        crls: Vec::new(alloc),
        entries: Vec::new(alloc),
    };
    for _ in 0..asked {
        match next_record(&mut reader, &mut feed) {
            Ok(record) => text.push_str(put_record(&mut job, record)?)?,
            Err(JobFault::Layout(fault)) => put_fault(&mut text, fault)?,
            Err(fault) => write!(text, " {fault:?}")?,
        }
    }
    if job_fits(&job) {
        let digits = hex::encode(alloc, &write_job(alloc, &job)?)?;
        write!(text, "\nwritten {digits}")?;
    }
    *reads = file.made;
    Ok(text)
}
