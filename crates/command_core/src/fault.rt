//! What is wrong with the file of a job that isn't published, or of a ledger that isn't rebased.

ghost use Rattle.std.specs.Prelude.{◌≡◌};
ghost use Rattle.command_core.specs.Faults.{of_admission, of_publishing, of_rebasing};

use input_core::FileFault;
use publication_core::{BaseFault, PublishFault};
use store_core::Refusal;
use universe_core::AdmitFault;

/// A job that isn't admitted breaks the chain as a part would.
pub(crate) fn unadmitted(fault: AdmitFault) -> FileFault
    ensures { result ≡ of_admission fault }
{
    match fault {
        AdmitFault::BadCrl { place, fault } => FileFault::BadCrl { place, fault },
        AdmitFault::OldEpoch { held, given } => {
            FileFault::Chain(Refusal::OldEpoch { held, given })
        }
        AdmitFault::CoverageShrinks { log } => FileFault::Chain(Refusal::CoverageShrinks { log }),
        AdmitFault::ChainFull => FileFault::Chain(Refusal::Full),
        AdmitFault::TooMany { what, limit } => FileFault::TooMany { what, limit },
        AdmitFault::NoMemory => FileFault::NoMemory,
    }
}

/// What is wrong with the file of a job that isn't published.
pub fn unpublished(fault: PublishFault) -> FileFault
    ensures { result ≡ of_publishing fault }
{
    match fault {
        PublishFault::Admission(fault) => unadmitted(fault),
        PublishFault::SeedsExhausted { issuer, stage } => FileFault::Seeds { issuer, stage },
        PublishFault::NoMemory => FileFault::NoMemory,
    }
}

/// What is wrong with the file of a ledger that isn't rebased.
pub fn unrebased(fault: BaseFault) -> FileFault
    ensures { result ≡ of_rebasing fault }
{
    match fault {
        BaseFault::TooMany { what, limit } => FileFault::TooMany { what, limit },
        BaseFault::SeedsExhausted { issuer, stage } => FileFault::Seeds { issuer, stage },
        BaseFault::NoMemory => FileFault::NoMemory,
    }
}
