use crate::counts::Counts;
use ident_core::{Head, Identity};
use ledger_core::Draft;
use octets_core::Key32;

/// What a filter's block is built from: an enrolled issuer, its universe, ascending, and beside each of it whether it
/// is revoked.
#[derive(Debug, Drop)]
pub struct Group {
    pub issuer: Key32,
    pub universe: Vec<Identity>,
    pub revoked: Vec<bool>,
}

/// What an admitted job adds to a chain.
#[derive(Debug, Drop)]
pub struct Admitted {
    /// The head of the next part.
    pub head: Head,
    /// One for each enrolled issuer, ascending.
    pub groups: Vec<Group>,
    pub counts: Counts,
    /// The next ledger, but for the trailer of the next part.
    pub next: Draft,
}
