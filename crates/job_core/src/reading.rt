//! Jobs from bytes.

ghost use Rattle.std.specs.Prelude.{◌≡◌, ◌≢◌, ◌+◌, ◌≤◌, length, Ok, Err, IfOk, IfErr, OnOk};
ghost use Rattle.job_core.specs.JobFields.{outcome_view, fields_of_job, AreWithin};
ghost use Rattle.job_core.specs.JobLayout.{OneRange, OneCrl, OneEntry, kept};
ghost use Rattle.job_core.specs.JobText.{crl_held, entry_held};
ghost use Rattle.job_core.specs.Partial.{saying_one, TakesOne};
ghost use Rattle.crl_core.specs.Outcome.{outcome};
ghost use Rattle.log_core.specs.Entries.{entry_of};
ghost use Rattle.job_core.specs.Pulling.{AnswersJob};
ghost use Rattle.job_core.specs.Fitting.{FitsFields, IsWithinLimits};
ghost use Rattle.job_core.specs.Offsets.{offset_in_job};

use crate::bounds::{Limits, What};
use crate::fault::JobFault;
use crate::meaning::{Job, JobCrl};
use crate::raw::{RawCrl, RawEntry};
use crate::reading_from::read_job_from;
use crl_core::{Crl, CrlFault, read_crl};
use ident_core::Range;
use log_core::{Entry, read_entry};
use octets_core::Key32;
use outside_core::{Feed, SliceDepot};
use std::alloc::Global;

fn entry_from(log: Key32, leaf: &[u8], extra: &[u8]) -> Option<Entry>
    ensures { result ≡ entry_of log leaf.now extra.now }
{
    match read_entry(log, leaf, extra) {
        Ok(entry) => Some(entry),
        Err(_) => None,
    }
}

fn outcome_in(alloc: Global, bytes: &[u8]) -> Result<Result<Crl, CrlFault>, JobFault>
    ensures value { IfOk result (λ x. outcome_view x ≡ outcome bytes.now) }
    ensures settled { IfOk result (λ x. x ≢ Err CrlFault.NoMemory) }
    ensures wanted { IfErr result (λ e. e ≡ JobFault.NoMemory) }
{
    match read_crl(alloc, bytes) {
        Ok(crl) => Ok(Ok(crl)),
        Err(CrlFault::NoMemory) => Err(JobFault::NoMemory),
        Err(fault) => Ok(Err(fault)),
    }
}

fn total_with(serials: u32, outcome: &Result<Crl, CrlFault>) -> usize
    ensures { result ≡ serials + kept (outcome_view outcome.now) }
{
    match outcome {
        Ok(crl) => serials as usize + crl.serials.len(),
        Err(_) => serials as usize,
    }
}

/// Adds a CRL, and answers how many serials are kept of all CRLs so far, its own too.
pub fn put_crl(
    job: &mut Job,
    alloc: Global,
    crl: &RawCrl,
    serials: u32,
    limits: &Limits,
) -> Result<u32, JobFault>
    ensures { TakesOne limits.now serials (OneCrl (crl_held crl.now)) (fields_of_job job.old) (fields_of_job job.new) result }
{
    let outcome = outcome_in(alloc, &crl.bytes)?;
    let total = total_with(serials, &outcome);
    if total > limits.serials as usize {
        return Err(JobFault::TooMany {
            what: What::Serials,
            limit: limits.serials,
        });
    }
    job.crls.push(JobCrl {
        issuer: crl.issuer,
        outcome,
    })?;
    Ok(total as u32)
}

/// Adds a range.
pub fn put_range(job: &mut Job, range: Range) -> Result<(), JobFault>
    ensures ok { OnOk result (fields_of_job job.new ≡ saying_one (fields_of_job job.old) (OneRange range)) }
    ensures wanted { IfErr result (λ e. e ≡ JobFault.NoMemory) }
{
    job.ranges.push(range)?;
    Ok(())
}

/// Adds what an entry gives.
pub fn put_entry(job: &mut Job, entry: &RawEntry) -> Result<(), JobFault>
    ensures ok { OnOk result (fields_of_job job.new ≡ saying_one (fields_of_job job.old) (OneEntry (entry_held entry.now))) }
    ensures wanted { IfErr result (λ e. e ≡ JobFault.NoMemory) }
{
    let meaning = entry_from(entry.log, &entry.leaf, &entry.extra);
    job.entries.push(meaning)?;
    Ok(())
}

/// The job of the bytes, or the first fault in their order: a field that is short or fails its test, or one thing more
/// than a limit. An entry that can't be read is `None`, and a CRL that isn't taken has its fault; neither ends the job.
/// The answer is never `ReadFault`.
pub fn read_job(alloc: Global, bytes: &[u8], limits: &Limits) -> Result<Job, JobFault>
    requires { AreWithin limits.now Limits.PUBLISHED }
    // They are the text of what a job holds, each of them, and the answer is what it means.
    ensures exact { AnswersJob fields_of_job limits.now bytes.now result }
    ensures fits { IfOk result (λ job. FitsFields (fields_of_job job)) }
    ensures within { IfOk result (λ job. IsWithinLimits limits.now (fields_of_job job)) }
    ensures at { IfErr result (λ e. offset_in_job e ≤ length bytes.now) }
    ensures no_read { IfErr result (λ e. e ≢ JobFault.ReadFault) }
{
    let mut depot = SliceDepot::new(bytes);
    let mut feed = Feed::new(&mut depot, "");
    read_job_from(alloc, &mut feed, limits)
}
