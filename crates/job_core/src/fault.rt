ghost use Rattle.std.specs.Prelude.{◌≡◌};

use crate::bounds::What;
use octets_core::LayoutFault;
use std::alloc::{AllocError, AllocFailed};
use thiserror::Error;

/// Why bytes give no job.
#[derive(Clone, Copy, Debug, PartialEq, Eq, Error)]
pub enum JobFault {
    /// A field is short or fails its test.
    #[error("a field is short or has a value that it may not have")]
    Layout(LayoutFault),
    /// There is one more than the limit.
    #[error("there is one more than a limit")]
    TooMany { what: What, limit: u32 },
    /// A read from outside failed.
    #[error("a read from outside failed")]
    ReadFault,
    /// Want of memory.
    #[error("want of memory")]
    NoMemory,
}

impl From<LayoutFault> for JobFault {
    ghost use Rattle.job_core.specs.declared.fault.JobFault.TheVariants.{Layout};

    ghost from_gives = { λ f e. e ≡ Layout f };

    fn from(fault: LayoutFault) -> JobFault {
        JobFault::Layout(fault)
    }
}

impl From<AllocError> for JobFault {
    ghost use Rattle.job_core.specs.declared.fault.JobFault.TheVariants.{NoMemory};

    ghost from_gives = { λ _ e. e ≡ NoMemory };

    fn from(_: AllocError) -> JobFault {
        JobFault::NoMemory
    }
}

impl<T: Drop> From<AllocFailed<T>> for JobFault {
    ghost use Rattle.job_core.specs.declared.fault.JobFault.TheVariants.{NoMemory};

    ghost from_gives = { λ _ e. e ≡ NoMemory };

    fn from(_: AllocFailed<T>) -> JobFault {
        JobFault::NoMemory
    }
}
