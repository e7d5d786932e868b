ghost use Rattle.std.specs.Prelude.{◌≡◌};

use crate::chain::{Refusal, Refused};
use crate::store::StartFault;
use octets_core::LayoutFault;

/// Why bytes give no store.
#[derive(Clone, Copy, Debug, PartialEq, Eq)]
pub enum StoreFault {
    /// A field is short or fails its test.
    Layout(LayoutFault),
    /// The first part is a delta.
    NotSnapshot,
    /// The parts before a part don't take it.
    Refused(Refusal),
    /// Want of memory.
    NoMemory,
}

impl From<LayoutFault> for StoreFault {
    ghost use Rattle.store_core.specs.declared.fault.StoreFault.TheVariants.{Layout};

    ghost from_gives = { λ f e. e ≡ Layout f };

    fn from(fault: LayoutFault) -> StoreFault {
        StoreFault::Layout(fault)
    }
}

impl From<StartFault> for StoreFault {
    ghost use Rattle.store_core.specs.Starting.{fault_of_start};

    ghost from_gives = { λ f e. e ≡ fault_of_start f };

    fn from(fault: StartFault) -> StoreFault {
        match fault {
            StartFault::NotSnapshot(_) => StoreFault::NotSnapshot,
            StartFault::NoMemory(_) => StoreFault::NoMemory,
        }
    }
}

impl From<Refused> for StoreFault {
    ghost use Rattle.store_core.specs.declared.fault.StoreFault.TheVariants.{Refused as OfRefusal};

    ghost from_gives = { λ r e. e ≡ OfRefusal r.why };

    fn from(refused: Refused) -> StoreFault {
        StoreFault::Refused(refused.why)
    }
}
