ghost use Rattle.std.specs.Prelude.{◌≡◌};

use ident_core::BadSerial;
use octets_core::LayoutFault;
use sct_core::CertFault;
use std::alloc::AllocError;
use store_core::{Refusal, StoreFault};

/// Why a call gives nothing.
#[derive(Clone, Copy, Debug, PartialEq, Eq)]
pub enum LentFault {
    /// A field of the store is short or fails its test.
    Layout(LayoutFault),
    /// The first part of the store is a delta.
    NotSnapshot,
    /// The parts before a part of the store don't take it.
    Chain(Refusal),
    /// The serial has no octet, or more than 32.
    BadSerial,
    /// The sightings of a query aren't among those that are lent.
    BadSightings,
    /// The places aren't 1 to 65,536, or are by neither issuers nor identities.
    BadPlaces,
    /// The certificate isn't read, or its timestamps aren't.
    BadCert(CertFault),
    /// The issuer's certificate isn't read.
    BadIssuerCert,
    /// Want of memory.
    NoMemory,
}

impl From<StoreFault> for LentFault {
    ghost use Rattle.lending_core.specs.Faults.{of_store};

    ghost from_gives = { λ f e. e ≡ of_store f };

    fn from(fault: StoreFault) -> LentFault {
        match fault {
            StoreFault::Layout(fault) => LentFault::Layout(fault),
            StoreFault::NotSnapshot => LentFault::NotSnapshot,
            StoreFault::Refused(why) => LentFault::Chain(why),
            StoreFault::NoMemory => LentFault::NoMemory,
        }
    }
}

impl From<BadSerial> for LentFault {
    ghost use Rattle.lending_core.specs.declared.fault.LentFault.TheVariants as faults;

    ghost from_gives = { λ f e. e ≡ faults.BadSerial };

    fn from(_: BadSerial) -> LentFault {
        LentFault::BadSerial
    }
}

impl From<CertFault> for LentFault {
    ghost use Rattle.lending_core.specs.declared.fault.LentFault.TheVariants.{BadCert};

    ghost from_gives = { λ f e. e ≡ BadCert f };

    fn from(fault: CertFault) -> LentFault {
        LentFault::BadCert(fault)
    }
}

impl From<AllocError> for LentFault {
    ghost use Rattle.lending_core.specs.declared.fault.LentFault.TheVariants.{NoMemory};

    ghost from_gives = { λ f e. e ≡ NoMemory };

    fn from(_: AllocError) -> LentFault {
        LentFault::NoMemory
    }
}
