//! Jobs.

use crate::crls::put_crl;
use crate::entries::{put_entry, put_fault};
use ident_core::Range;
use job_core::{Job, JobCrl, JobFault, Limits, read_job};
use octets_core::Key32;
use std::alloc::Global;
use std::fmt::Write;
use std::test::Fail;

fn put_key(alloc: Global, text: &mut String, key: &Key32) -> Result<(), Fail> {
    let digits = hex::encode(alloc, key.bytes().as_slice())?;
    write!(text, " {digits}")?;
    Ok(())
}

fn put_range(alloc: Global, text: &mut String, range: &Range) -> Result<(), Fail> {
    text.push_str("\nrange")?;
    put_key(alloc, text, &range.log)?;
    let (from, to) = (range.from, range.to);
    write!(text, " {from} {to}")?;
    Ok(())
}

fn put_job_crl(alloc: Global, text: &mut String, crl: &JobCrl) -> Result<(), Fail> {
    text.push_str("\ncrl")?;
    put_key(alloc, text, &crl.issuer)?;
    match &crl.outcome {
        Ok(found) => put_crl(alloc, text, found),
        Err(fault) => {
            write!(text, " {fault:?}")?;
            Ok(())
        }
    }
}

/// The records of a job, in its order.
fn put_records(alloc: Global, text: &mut String, job: &Job) -> Result<(), Fail> {
    for range in &job.ranges {
        put_range(alloc, text, range)?;
    }
    for crl in &job.crls {
        put_job_crl(alloc, text, crl)?;
    }
    for entry in &job.entries {
        match entry {
            Some(entry) => {
                text.push_str("\nentry ")?;
                put_entry(alloc, text, entry)?;
            }
            None => text.push_str("\nentry unread")?,
        }
    }
    Ok(())
}

/// What the job of these bytes says, or the first field of it that fails. It may have so many ranges, CRLs, serials and
/// entries, up to the published limits.
pub fn tell_job(alloc: Global, bytes: &[u8], most: [u32; 4]) -> Result<String, Fail> {
    let mut text = String::from_str(alloc, "job")?;
    let published = Limits::PUBLISHED;
    let limits = Limits {
        ranges: most[0].min(published.ranges),
        crls: most[1].min(published.crls),
        serials: most[2].min(published.serials),
        entries: most[3].min(published.entries),
        identities: 0,
    };
    match read_job(alloc, bytes, &limits) {
        Ok(job) => {
            let (epoch, moment) = (job.epoch, job.moment);
            write!(text, " epoch {epoch} moment {moment}")?;
            put_records(alloc, &mut text, &job)?;
        }
        Err(JobFault::Layout(fault)) => put_fault(&mut text, fault)?,
        Err(fault) => write!(text, " {fault:?}")?,
    }
    Ok(text)
}
