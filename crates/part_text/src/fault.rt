ghost use Rattle.std.specs.Prelude.{◌≡◌};

use octets_core::{LayoutFault, NoMemory};
use thiserror::Error;

/// Why bytes give no part.
#[derive(Clone, Copy, Debug, PartialEq, Eq, Error)]
pub enum PartFault {
    /// A field is short or fails its test.
    #[error("a field is short or has a value that it may not have")]
    Layout(LayoutFault),
    /// Want of memory.
    #[error("want of memory")]
    NoMemory,
}

impl From<LayoutFault> for PartFault {
    ghost use Rattle.part_text.specs.declared.fault.PartFault.TheVariants.{Layout};

    ghost from_gives = { λ f e. e ≡ Layout f };

    fn from(fault: LayoutFault) -> PartFault {
        PartFault::Layout(fault)
    }
}

impl From<NoMemory> for PartFault {
    ghost use Rattle.part_text.specs.declared.fault.PartFault.TheVariants.{NoMemory};

    ghost from_gives = { λ _ e. e ≡ NoMemory };

    fn from(_: NoMemory) -> PartFault {
        PartFault::NoMemory
    }
}
