ghost use Rattle.std.specs.Prelude.{◌≡◌};

use octets_core::NoMemory;
use std::alloc::{AllocError, AllocFailed};

/// Why there is no block.
#[derive(Clone, Copy, Debug, PartialEq, Eq)]
pub enum BlockFault {
    /// The equations of the approximate stage (1) or of the exact stage (2) are unsolvable at each of the 256 seeds.
    SeedsExhausted { stage: u8 },
    /// Want of memory.
    NoMemory,
}

impl From<NoMemory> for BlockFault {
    ghost use Rattle.stage_core.specs.declared.fault.BlockFault.TheVariants.{NoMemory};

    ghost from_gives = { λ _ e. e ≡ NoMemory };

    fn from(_: NoMemory) -> BlockFault {
        BlockFault::NoMemory
    }
}

impl From<AllocError> for BlockFault {
    ghost use Rattle.stage_core.specs.declared.fault.BlockFault.TheVariants.{NoMemory};

    ghost from_gives = { λ _ e. e ≡ NoMemory };

    fn from(_: AllocError) -> BlockFault {
        BlockFault::NoMemory
    }
}

impl<T: Drop> From<AllocFailed<T>> for BlockFault {
    ghost use Rattle.stage_core.specs.declared.fault.BlockFault.TheVariants.{NoMemory};

    ghost from_gives = { λ _ e. e ≡ NoMemory };

    fn from(_: AllocFailed<T>) -> BlockFault {
        BlockFault::NoMemory
    }
}
