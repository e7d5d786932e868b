ghost use Rattle.std.specs.Prelude.{◌≢◌, Err};
ghost use Rattle.crl_core.specs.declared.crl.CrlFault.TheVariants.{NoMemory};

use crl_core::{Crl, CrlFault};
use ident_core::Range;
use log_core::Entry;
use octets_core::Key32;

/// A CRL of a job: whose it is, and what its bytes come to.
#[derive(Debug, Drop)]
pub struct JobCrl {
    pub issuer: Key32,
    /// The fault is never want of memory.
    pub outcome: Result<Crl, CrlFault>,
    ghost settled: { outcome ≢ Err NoMemory },
}

/// What a job says. Ranges, CRLs and entries stand in the order of the job's records.
#[derive(Debug, Drop)]
pub struct Job {
    pub epoch: u64,
    /// In milliseconds since 1970-01-01 00:00:00 UTC.
    pub moment: u64,
    pub ranges: Vec<Range>,
    pub crls: Vec<JobCrl>,
    /// What each entry gives, or `None` where it isn't read.
    pub entries: Vec<Option<Entry>>,
}
