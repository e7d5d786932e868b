use ident_core::{Identity, Range};
use octets_core::Key32;

/// What the publisher remembers of a part.
#[derive(Debug, Drop)]
pub struct LedgerPart {
    /// The epoch of the part's job.
    pub epoch: u64,
    /// The SHA-256 of the part's text before its trailer.
    pub trailer: Key32,
    /// The ranges of the part's job.
    pub ranges: Vec<Range>,
    /// The issuers that were enrolled in the part's job.
    pub issuers: Vec<Key32>,
}

/// What the publisher remembers of an identity that was accepted.
#[derive(Clone, Copy, Debug, PartialEq, Eq)]
pub struct LedgerItem {
    pub id: Identity,
    /// The place in the chain, from 0, of the first part whose job accepted an entry of the identity.
    pub birth: u8,
    /// The place of the last part whose filter was built with the identity as revoked, if there is one.
    pub last: Option<u8>,
    /// The certificate's notAfter, in seconds since 1970, if it is told.
    pub until: Option<i64>,
}

// A ledger holds up to 4,194,304 of them in memory.
const _: () = prove!(size_of::<LedgerItem>() <= 88);
