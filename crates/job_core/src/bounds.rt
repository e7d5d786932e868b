use ident_core::{MAX_IDENTITIES, MAX_RANGES};

/// What there is a limited number of: in a job, and of issuers in a ledger.
#[derive(Clone, Copy, Debug, PartialEq, Eq)]
pub enum What {
    Ranges,
    Crls,
    /// The serials that are kept of all CRLs of a job together.
    Serials,
    Entries,
    Identities,
    /// The different issuers that a ledger's parts have together, but for those that a rebase leaves out.
    Issuers,
}

/// How many of each a job may have.
#[derive(Clone, Copy, Debug, PartialEq, Eq)]
pub struct Limits {
    pub ranges: u32,
    pub crls: u32,
    /// The serials that are kept of all CRLs of a job together.
    pub serials: u32,
    pub entries: u32,
    pub identities: u32,
}

impl Limits {
    /// The limits that a published chain keeps.
    pub const PUBLISHED: Limits = Limits {
        ranges: MAX_RANGES as u32,
        crls: 65_535,
        serials: 16_777_216,
        entries: 4_194_304,
        identities: MAX_IDENTITIES as u32,
    };
}
