//! Jobs that are read as they come from a feed.

ghost use Rattle.std.specs.Prelude.{◌≡◌, IfOk};
ghost use Rattle.outside_core.specs.Effects.{OnlyReads};
ghost use Rattle.outside_core.specs.Filling.{IsInOrder};
ghost use Rattle.outside_core.specs.Standing.{reference_of, depot_of, name_of, place_of};
ghost use Rattle.job_core.specs.JobFields.{fields_of_job};
ghost use Rattle.job_core.specs.Fitting.{FitsFields, IsWithinLimits};
ghost use Rattle.outside_core.specs.Reads.{WhichFailed};
ghost use Rattle.input_core.specs.Inputs.{IsInput};
ghost use Rattle.input_core.specs.Readings.{job_in as job_of};

use crate::fault::FileFault;
use job_core::{Job, Limits, read_job_from};
use outside_core::{Depot, Feed};
use std::alloc::Global;

/// The job that the feed's file is.
fn fed_job<D: Depot>(alloc: Global, feed: &mut Feed<'_, D>) -> Result<Job, FileFault>
    requires place { place_of feed.old ≡ 0 }
    requires in_order { IsInOrder D.Depot feed.old }
    ensures input { IsInput (D.files (depot_of feed.old)) (WhichFailed D.Depot (depot_of feed.old) (depot_of feed.new))
        (name_of feed.old) job_of fields_of_job result }
    ensures fits { IfOk result (λ job. FitsFields (fields_of_job job)) }
    ensures within { IfOk result (λ job. IsWithinLimits Limits.PUBLISHED (fields_of_job job)) }
    ensures same_reference { reference_of feed.new ≡ reference_of feed.old }
    ensures only_reads { OnlyReads D.Depot (depot_of feed.old) (depot_of feed.new) }
{
    Ok(read_job_from(alloc, feed, &Limits::PUBLISHED)?)
}

/// The job of the file of this name.
pub fn job_in<D: Depot>(alloc: Global, depot: &mut D, name: &str) -> Result<Job, FileFault>
    ensures input { IsInput (D.files depot.old) (WhichFailed D.Depot depot.old depot.new) name.now
        job_of fields_of_job result }
    ensures fits { IfOk result (λ job. FitsFields (fields_of_job job)) }
    ensures within { IfOk result (λ job. IsWithinLimits Limits.PUBLISHED (fields_of_job job)) }
    ensures only_reads { OnlyReads D.Depot depot.old depot.new }
{
    let mut feed = Feed::new(depot, name);
    fed_job(alloc, &mut feed)
}
