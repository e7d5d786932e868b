use crate::findings::Findings;
use ident_core::Serial;
use std::alloc::AllocFailed;

/// A CRL that is taken.
#[derive(Debug, Drop)]
pub struct Crl {
    /// In seconds since 1970-01-01 00:00:00 UTC.
    pub this_update: i64,
    /// The same; without it the CRL is never out of date.
    pub next_update: Option<i64>,
    /// The serials of the entries in their order, repeats kept. Those of more than 32 octets are left out.
    pub serials: Vec<Serial>,
}

/// Why a CRL isn't taken. Where several hold, the first in this order.
#[derive(Clone, Copy, Debug, PartialEq, Eq)]
pub enum CrlFault {
    /// The bytes aren't a CRL of RFC 5280, 5.1.
    Malformed,
    /// It is a delta CRL (RFC 5280, 5.2.4).
    DeltaCrl,
    /// It lists certificates of other issuers (RFC 5280, 5.2.5 and 5.3.3).
    Indirect,
    /// An extension is critical, and this reader doesn't know it (RFC 5280, 5.2 and 5.3).
    UnknownCritical,
    /// Want of memory.
    NoMemory,
}

impl<T: Drop> From<AllocFailed<T>> for CrlFault {
    ghost use Rattle.std.specs.Prelude.{◌≡◌};
    ghost use Rattle.crl_core.specs.declared.crl.CrlFault.TheVariants as fault;

    ghost from_gives = { λ _ e. e ≡ fault.NoMemory };

    fn from(_: AllocFailed<T>) -> CrlFault {
        CrlFault::NoMemory
    }
}

/// What the extensions of entries say, and the serials of them that are kept.
#[derive(Drop)]
pub(crate) struct Entries {
    pub(crate) found: Findings,
    pub(crate) serials: Vec<Serial>,
}

/// What all extensions say, and the CRL if that is taken.
#[derive(Drop)]
pub(crate) struct TbsList {
    pub(crate) found: Findings,
    pub(crate) crl: Crl,
}

mod entry;
mod list;

pub use list::read_crl;
