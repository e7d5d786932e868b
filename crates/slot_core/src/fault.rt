ghost use Rattle.std.specs.Prelude.{◌≡◌};
ghost use Rattle.slot_core.specs.declared.fault.SlotFault.TheVariants.{DiskFault, NoMemory};

use outside_core::Failed;
use std::alloc::AllocError;
use thiserror::Error;

/// Why a device wasn't read or written.
#[derive(Clone, Copy, Debug, PartialEq, Eq, Error)]
pub enum SlotFault {
    /// The field at that offset is short or fails its test. The bytes of a slot count as its length's.
    #[error("a field of the device is short or has a value that it may not have")]
    BadDevice { at: u64 },
    /// There are more bytes than a slot holds.
    #[error("there are more bytes than a slot holds")]
    TooLong { capacity: u64 },
    /// The disk failed.
    #[error("the disk failed")]
    DiskFault,
    /// Want of memory.
    #[error("want of memory")]
    NoMemory,
}

impl From<Failed> for SlotFault {
    ghost from_gives = { λ _ e. e ≡ DiskFault };

    fn from(_: Failed) -> SlotFault {
        SlotFault::DiskFault
    }
}

impl From<AllocError> for SlotFault {
    ghost from_gives = { λ _ e. e ≡ NoMemory };

    fn from(_: AllocError) -> SlotFault {
        SlotFault::NoMemory
    }
}
