use card_core::Verdict;
use octets_core::Key32;
use thiserror::Error;

/// Why an audit doesn't say yes. Jobs and their entries are named by their places, counted from 0.
#[derive(Clone, Copy, Debug, PartialEq, Eq, Error)]
pub enum AuditFault {
    /// The job isn't admitted: its epoch isn't above that of the job before it.
    #[error("a job's epoch is not above that of the job before it")]
    OldEpoch {
        job: u32,
        held: u64,
        given: u64,
    },
    /// The job isn't admitted: a range of the job before it, of this log, lies in none of its.
    #[error("a range of a job lies in none of the next job's")]
    CoverageShrinks {
        job: u32,
        log: Key32,
    },
    /// The job accepts the entry, and asked with its sighting the store says `held`, where the truth is revoked or
    /// else good. The entry is counted among all entries of the job.
    #[error("the store does not say the truth of an accepted entry")]
    Disagrees {
        job: u32,
        entry: u32,
        held: Verdict,
        /// Whether the truth is revoked.
        truth: bool,
    },
    /// Want of memory.
    #[error("want of memory")]
    NoMemory,
}
