ghost use Rattle.std.specs.Prelude.{◌≡◌};

use crl_core::CrlFault;
use job_core::What;
use octets_core::Key32;
use std::alloc::{AllocError, AllocFailed};
use thiserror::Error;

/// Why a job isn't admitted. Where several hold, the first of these is answered.
#[derive(Clone, Copy, Debug, PartialEq, Eq, Error)]
pub enum AdmitFault {
    /// A CRL isn't accepted. Its place counts the job's CRLs from 0.
    #[error("a CRL of the job is not accepted")]
    BadCrl { place: u32, fault: CrlFault },
    /// The job's epoch isn't above that of the newest part.
    #[error("the job's epoch is not above that of the newest part")]
    OldEpoch { held: u64, given: u64 },
    /// A range of the newest part, of this log, lies in none of the job's.
    #[error("a range of the newest part lies in none of the job's")]
    CoverageShrinks { log: Key32 },
    /// The chain has 64 parts already.
    #[error("the chain has all its parts already")]
    ChainFull,
    /// There is one more than the limit.
    #[error("there is one more than a limit")]
    TooMany { what: What, limit: u32 },
    /// Want of memory.
    #[error("want of memory")]
    NoMemory,
}

impl From<AllocError> for AdmitFault {
    ghost use Rattle.universe_core.specs.declared.fault.AdmitFault.TheVariants.{NoMemory};

    ghost from_gives = { λ _ e. e ≡ NoMemory };

    fn from(_: AllocError) -> AdmitFault {
        AdmitFault::NoMemory
    }
}

impl<T: Drop> From<AllocFailed<T>> for AdmitFault {
    ghost use Rattle.universe_core.specs.declared.fault.AdmitFault.TheVariants.{NoMemory};

    ghost from_gives = { λ _ e. e ≡ NoMemory };

    fn from(_: AllocFailed<T>) -> AdmitFault {
        AdmitFault::NoMemory
    }
}
