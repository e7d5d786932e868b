ghost use Rattle.std.specs.Prelude.{◌≡◌};
ghost use Rattle.publication_core.specs.BaseFaults.{of_building};
ghost use Rattle.publication_core.specs.declared.base_fault.BaseFault.TheVariants as bases;

use builder_core::BuildFault;
use job_core::What;
use octets_core::Key32;
use std::alloc::AllocError;

/// Why a ledger isn't rebased.
#[derive(Clone, Copy, Debug, PartialEq, Eq)]
pub enum BaseFault {
    /// The parts of the ledger have more different issuers than one part may, those that are left out not counted.
    TooMany { what: What, limit: u32 },
    /// The equations of this issuer's approximate stage (1) or exact stage (2) are unsolvable at each of the 256 seeds,
    /// and those of each issuer before it are solved.
    SeedsExhausted { issuer: Key32, stage: u8 },
    /// Want of memory.
    NoMemory,
}

impl From<AllocError> for BaseFault {
    ghost from_gives = { λ _ e. e ≡ bases.NoMemory };

    fn from(_: AllocError) -> BaseFault {
        BaseFault::NoMemory
    }
}

impl From<BuildFault> for BaseFault {
    ghost from_gives = { λ fault e. e ≡ of_building fault };

    fn from(fault: BuildFault) -> BaseFault {
        match fault {
            BuildFault::SeedsExhausted { issuer, stage } => BaseFault::SeedsExhausted {
                issuer,
                stage,
            },
            BuildFault::NoMemory => BaseFault::NoMemory,
        }
    }
}
