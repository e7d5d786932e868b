use ident_core::Head;
use ledger_core::Draft;
use universe_core::Group;

/// What a ledger is rebased to: the first part of a new chain, and its ledger.
#[derive(Debug, Drop)]
pub struct Rebased {
    /// The head of the part, a snapshot.
    pub head: Head,
    /// One for each issuer that was enrolled in some part of the old chain and isn't left out, ascending.
    pub groups: Vec<Group>,
    /// How many of the other identities have expired, and aren't kept.
    pub pruned: u32,
    /// How many identities are left out.
    pub left: u32,
    /// The new ledger, but for the trailer of its part.
    pub next: Draft,
}
