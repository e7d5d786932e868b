ghost use Rattle.std.specs.Prelude.{◌≡◌};
ghost use Rattle.universe_core.specs.HeldJobs.{job_held};

use job_core::Job;
use std::alloc::Global;

/// A job that is to be admitted.
#[derive(Drop)]
pub(crate) enum HeldJob<'a> {
    /// It stays whole.
    Lent(&'a Job),
    /// What isn't asked any more is let go.
    Given(Job),
}

impl<'a> HeldJob<'a> {
    pub(crate) fn job(&self) -> &Job
        ensures { result.now ≡ job_held self.now }
    {
        match self {
            HeldJob::Lent(job) => job,
            HeldJob::Given(job) => job,
        }
    }

    /// The job, whose entries aren't asked any more.
    pub(crate) fn without_entries(self, alloc: Global) -> HeldJob<'a>
        ensures epoch { (job_held result).epoch ≡ (job_held self.entry).epoch }
        ensures ranges { (job_held result).ranges.items ≡ (job_held self.entry).ranges.items }
        ensures crls { (job_held result).crls.items ≡ (job_held self.entry).crls.items }
    {
        match self {
            HeldJob::Lent(job) => HeldJob::Lent(job),
            HeldJob::Given(job) => HeldJob::Given(Job {
                epoch: job.epoch,
                moment: job.moment,
                ranges: job.ranges,
                crls: job.crls,
                entries: Vec::new(alloc),
            }),
        }
    }
}
