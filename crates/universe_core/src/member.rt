use ident_core::Identity;
use ledger_core::LedgerItem;

/// An identity accepted so far, and what its item and its entries say.
#[derive(Clone, Copy)]
pub(crate) struct Member {
    pub(crate) id: Identity,
    pub(crate) birth: u8,
    pub(crate) last: Option<u8>,
    /// Whether the part of its last covers the sightings that are accepted now.
    pub(crate) settled: bool,
    /// The greatest date, of the item and of the entries that are accepted now; none where one of these has none.
    pub(crate) until: Option<i64>,
}

/// The identities accepted so far, ascending, as items that become those of the next ledger.
#[derive(Drop)]
pub(crate) struct Members {
    pub(crate) items: Vec<LedgerItem>,
    /// Beside each item, whether the part of its last covers the sightings that are accepted now.
    pub(crate) settled: Vec<bool>,
}
