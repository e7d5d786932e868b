ghost use Rattle.std.specs.Prelude.{◌≡◌};
ghost use Rattle.builder_core.specs.Building.{fault_of};

use octets_core::{Key32, NoMemory};
use stage_core::BlockFault;
use std::alloc::{AllocError, AllocFailed};
use thiserror::Error;

/// Why there is no part.
#[derive(Clone, Copy, Debug, PartialEq, Eq, Error)]
pub enum BuildFault {
    /// The equations of this issuer's approximate stage (1) or exact stage (2) are unsolvable at each of the 256 seeds,
    /// and those of each issuer before it are solved.
    #[error("the equations of a stage are unsolvable at each seed")]
    SeedsExhausted { issuer: Key32, stage: u8 },
    /// Want of memory.
    #[error("want of memory")]
    NoMemory,
}

impl BuildFault {
    /// The fault of a block, with its issuer.
    pub(crate) fn new(issuer: Key32, fault: BlockFault) -> BuildFault
        ensures { result ≡ fault_of issuer fault }
    {
        match fault {
            BlockFault::SeedsExhausted { stage } => BuildFault::SeedsExhausted { issuer, stage },
            BlockFault::NoMemory => BuildFault::NoMemory,
        }
    }
}

impl From<NoMemory> for BuildFault {
    ghost use Rattle.builder_core.specs.declared.fault.BuildFault.TheVariants.{NoMemory};

    ghost from_gives = { λ _ e. e ≡ NoMemory };

    fn from(_: NoMemory) -> BuildFault {
        BuildFault::NoMemory
    }
}

impl From<AllocError> for BuildFault {
    ghost use Rattle.builder_core.specs.declared.fault.BuildFault.TheVariants.{NoMemory};

    ghost from_gives = { λ _ e. e ≡ NoMemory };

    fn from(_: AllocError) -> BuildFault {
        BuildFault::NoMemory
    }
}

impl<T: Drop> From<AllocFailed<T>> for BuildFault {
    ghost use Rattle.builder_core.specs.declared.fault.BuildFault.TheVariants.{NoMemory};

    ghost from_gives = { λ _ e. e ≡ NoMemory };

    fn from(_: AllocFailed<T>) -> BuildFault {
        BuildFault::NoMemory
    }
}
