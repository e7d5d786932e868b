ghost use Rattle.std.specs.Prelude.{◌≡◌};
ghost use Rattle.publication_core.specs.Faults.{of_admission, of_building};

use builder_core::BuildFault;
use octets_core::Key32;
use universe_core::AdmitFault;

/// Why nothing is published of a job.
#[derive(Clone, Copy, Debug, PartialEq, Eq)]
pub enum PublishFault {
    /// The job isn't admitted. The fault isn't want of memory.
    Admission(AdmitFault),
    /// The equations of this issuer's approximate stage (1) or exact stage (2) are unsolvable at each of the 256 seeds,
    /// and those of each issuer before it are solved.
    SeedsExhausted { issuer: Key32, stage: u8 },
    /// Want of memory.
    NoMemory,
}

impl From<AdmitFault> for PublishFault {
    ghost from_gives = { λ fault e. e ≡ of_admission fault };

    fn from(fault: AdmitFault) -> PublishFault {
        match fault {
            AdmitFault::NoMemory => PublishFault::NoMemory,
            fault => PublishFault::Admission(fault),
        }
    }
}

impl From<BuildFault> for PublishFault {
    ghost from_gives = { λ fault e. e ≡ of_building fault };

    fn from(fault: BuildFault) -> PublishFault {
        match fault {
            BuildFault::SeedsExhausted { issuer, stage } => {
                PublishFault::SeedsExhausted { issuer, stage }
            }
            BuildFault::NoMemory => PublishFault::NoMemory,
        }
    }
}
