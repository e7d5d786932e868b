ghost use Rattle.std.specs.Prelude.{◌≡◌};
ghost use Rattle.ledger_core.specs.LedgerReading.{of_ranges};

use ident_core::RangesFault;
use octets_core::LayoutFault;
use std::alloc::{AllocError, AllocFailed};
use thiserror::Error;

/// Why bytes give no ledger.
#[derive(Clone, Copy, Debug, PartialEq, Eq, Error)]
pub enum LedgerFault {
    /// A field is short or fails its test.
    #[error("a field is short or has a value that it may not have")]
    Layout(LayoutFault),
    /// Want of memory.
    #[error("want of memory")]
    NoMemory,
}

impl From<LayoutFault> for LedgerFault {
    ghost use Rattle.ledger_core.specs.declared.fault.LedgerFault.TheVariants.{Layout};

    ghost from_gives = { λ f e. e ≡ Layout f };

    fn from(fault: LayoutFault) -> LedgerFault {
        LedgerFault::Layout(fault)
    }
}

impl From<AllocError> for LedgerFault {
    ghost use Rattle.ledger_core.specs.declared.fault.LedgerFault.TheVariants.{NoMemory};

    ghost from_gives = { λ _ e. e ≡ NoMemory };

    fn from(_: AllocError) -> LedgerFault {
        LedgerFault::NoMemory
    }
}

impl<T: Drop> From<AllocFailed<T>> for LedgerFault {
    ghost use Rattle.ledger_core.specs.declared.fault.LedgerFault.TheVariants.{NoMemory};

    ghost from_gives = { λ _ e. e ≡ NoMemory };

    fn from(_: AllocFailed<T>) -> LedgerFault {
        LedgerFault::NoMemory
    }
}

impl From<RangesFault> for LedgerFault {
    ghost from_gives = { λ f e. e ≡ of_ranges f };

    fn from(fault: RangesFault) -> LedgerFault {
        match fault {
            RangesFault::Layout(fault) => LedgerFault::Layout(fault),
            RangesFault::NoMemory => LedgerFault::NoMemory,
        }
    }
}
