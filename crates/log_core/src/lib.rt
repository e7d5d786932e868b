//! Entries of certificate transparency logs (RFC 6962), and what is read of certificates (RFC 5280). No call takes
//! memory.
#![tactic(auto)]

mod certificate;
mod leaf;
mod reading;

pub use certificate::{certificate_serial_of, elements_behind_key, issuer_hash};
use ident_core::{Identity, Sighting};
pub use reading::read_entry;

/// The entry, or the certificate, isn't one that this profile reads.
#[derive(Clone, Copy, Debug, PartialEq, Eq)]
pub struct Unread;

/// An entry that is read: which certificate it is of, and when the log saw it.
#[derive(Clone, Copy, Debug, PartialEq, Eq)]
pub struct Entry {
    pub id: Identity,
    pub sighting: Sighting,
    /// The certificate's notAfter, in seconds since 1970, where its validity has the form of one.
    pub until: Option<i64>,
}

// A job holds up to 4,194,304 entries in memory.
const _: () = prove!(size_of::<Option<Entry>>() <= 136);
