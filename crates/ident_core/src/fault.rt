ghost use Rattle.std.specs.Prelude.{◌≡◌};

use octets_core::{LayoutFault, NoMemory};
use std::alloc::{AllocError, AllocFailed};

/// Why ranges aren't read.
#[derive(Clone, Copy, Debug, PartialEq, Eq)]
pub enum RangesFault {
    /// A field is short or fails its test.
    Layout(LayoutFault),
    /// Want of memory.
    NoMemory,
}

impl From<LayoutFault> for RangesFault {
    ghost use Rattle.ident_core.specs.declared.fault.RangesFault.TheVariants.{Layout};

    ghost from_gives = { λ f e. e ≡ Layout f };

    fn from(fault: LayoutFault) -> RangesFault {
        RangesFault::Layout(fault)
    }
}

impl From<AllocError> for RangesFault {
    ghost use Rattle.ident_core.specs.declared.fault.RangesFault.TheVariants.{NoMemory};

    ghost from_gives = { λ _ e. e ≡ NoMemory };

    fn from(_: AllocError) -> RangesFault {
        RangesFault::NoMemory
    }
}

impl<T: Drop> From<AllocFailed<T>> for RangesFault {
    ghost use Rattle.ident_core.specs.declared.fault.RangesFault.TheVariants.{NoMemory};

    ghost from_gives = { λ _ e. e ≡ NoMemory };

    fn from(_: AllocFailed<T>) -> RangesFault {
        RangesFault::NoMemory
    }
}
