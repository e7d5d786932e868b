//! Jobs from a feed.

ghost use Rattle.std.specs.Prelude.{◌≡◌, ◌≢◌, ◌+◌, ◌-◌, ◌≤◌, ◌<◌, ◌^◌, ℕ, List, map, All, Err, IfSome, IfOk};
ghost use Rattle.outside_core.specs.Filling.{IsInOrder};
ghost use Rattle.outside_core.specs.Standing.{place_of, StandsIn};
ghost use Rattle.crl_core.specs.Outcome.{CrlFieldsFit};
ghost use Rattle.job_core.specs.JobFields.{crl_view, fields_of_job, AreWithin};
ghost use Rattle.job_core.specs.Fitting.{EntryFieldsFit, FitsFields, IsWithinLimits};
ghost use Rattle.job_core.specs.Partial.{begun, records_saying};
ghost use Rattle.outside_core.specs.Pulling.{Pulled};
ghost use Rattle.job_core.specs.Pulling.{AnswersJob, Blames, Fetches, IsGiven, ReadsJob};

use crate::bounds::Limits;
use crate::fault::JobFault;
use crate::fetch::fetch_end;
use crate::meaning::Job;
use crate::partial::{no_numbers, numbers_facts};
use crate::raw::{RawEntry, no_entry};
use crate::reading::{put_crl, put_entry, put_range};
use crate::records::{Item, fetch_opening, next_item_from};
use outside_core::{Depot, Feed};
use std::alloc::Global;

/// A job before its first record.
fn begun_job(alloc: Global, epoch: u64, moment: u64) -> Job
    ensures { fields_of_job result ≡ begun epoch moment }
{
    Job {
        epoch,
        moment,
        ranges: Vec::new(alloc),
        crls: Vec::new(alloc),
        entries: Vec::new(alloc),
    }
}

/// Adds what the records say, up to the one that ends the job. The entries are read one after another into `entry`.
fn put_items<D: Depot>(
    job: &mut Job,
    alloc: Global,
    feed: &mut Feed<'_, D>,
    limits: &Limits,
    entry: &mut RawEntry,
) -> Result<(), JobFault>
    ensures exact { Fetches D.Depot (λ u. fields_of_job job.new)
        (records_saying limits.now (fields_of_job job.old)) feed.old feed.new result }
    ensures near { place_of feed.new ≤ place_of feed.old + 2 ^ 62 }
{
    let mut numbers = no_numbers();
    let mut serials = 0;
    'records: loop {
        numbers_facts(&numbers);
        match next_item_from(alloc, &mut numbers, feed, limits, entry) {
            Ok(None) => return Ok(()),
            Ok(Some(Item::Range(range))) => put_range(job, range)?,
            Ok(Some(Item::Crl(crl))) => {
                serials = put_crl(job, alloc, &crl, serials, limits)?;
            }
            Ok(Some(Item::Entry)) => put_entry(job, entry)?,
            Err(fault) => return Err(fault),
        }
    }
}

/// The job of the feed's file.
fn job_from<D: Depot>(
    alloc: Global,
    feed: &mut Feed<'_, D>,
    limits: &Limits,
) -> Result<Job, JobFault>
    requires { place_of feed.old ≡ 0 }
    ensures pulled { Pulled D.Depot feed.old feed.new }
    ensures blames { Blames D.Depot feed.old feed.new result }
    ensures reads { ReadsJob D.Depot fields_of_job limits.now feed.old result }
{
    let (epoch, moment) = fetch_opening(feed)?;
    let mut job = begun_job(alloc, epoch, moment);
    let mut entry = no_entry(alloc);
    put_items(&mut job, alloc, feed, limits, &mut entry)?;
    fetch_end(feed)?;
    Ok(job)
}

/// The job of the feed's file, as `read_job` gives it of bytes. The feed must stand at the first byte. `ReadFault` is
/// answered where a read failed, and only there. For `job_in`, which reads the job of a file for the commands.
pub fn read_job_from<D: Depot>(
    alloc: Global,
    feed: &mut Feed<'_, D>,
    limits: &Limits,
) -> Result<Job, JobFault>
    requires within { AreWithin limits.now Limits.PUBLISHED }
    requires first { place_of feed.old ≡ 0 }
    ensures pulled { Pulled D.Depot feed.old feed.new }
    ensures blames { Blames D.Depot feed.old feed.new result }
    ensures exact { (file : List ℕ) → StandsIn D.Depot feed.old file → AnswersJob fields_of_job limits.now file result }
    // Where no read failed, some bytes are read as the answer: where files are told, those that the feed's file holds.
    ensures given { IsInOrder D.Depot feed.old → result ≢ Err JobFault.ReadFault
        → (given : List ℕ) × IsGiven D.Depot feed.old given × AnswersJob fields_of_job limits.now given result }
    ensures crls { IfOk result (λ job. All (λ c. IfOk c.outcome CrlFieldsFit) (map crl_view job.crls.items)) }
    ensures entries { IfOk result (λ job. All (λ e. IfSome e EntryFieldsFit) job.entries.items) }
    ensures fits { IfOk result (λ job. FitsFields (fields_of_job job)) }
    ensures within { IfOk result (λ job. IsWithinLimits limits.now (fields_of_job job)) }
{
    // A file that isn't there is seen here, before memory is wanted.
    let Ok(()) = feed.refill() else {
        return Err(JobFault::ReadFault);
    };
    job_from(alloc, feed, limits)
}
