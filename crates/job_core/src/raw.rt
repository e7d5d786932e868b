ghost use Rattle.std.specs.Prelude.{◌≡◌, []};

use ident_core::Range;
use octets_core::Key32;
use std::alloc::Global;

/// A CRL of a job, not yet read.
#[derive(Debug, Drop)]
pub struct RawCrl {
    pub issuer: Key32,
    pub bytes: Vec<u8>,
}

/// An entry of a job, not yet read: the log, and the leaf and the extra data that it gave (RFC 6962, 4.6).
#[derive(Debug, Drop)]
pub struct RawEntry {
    pub log: Key32,
    pub leaf: Vec<u8>,
    pub extra: Vec<u8>,
}

/// An entry without bytes, of no log, for one that is read into it.
pub fn no_entry(alloc: Global) -> RawEntry
    ensures leaf { result.leaf.items ≡ [] }
    ensures extra { result.extra.items ≡ [] }
{
    RawEntry {
        log: Key32::new([0; 32]),
        leaf: Vec::new(alloc),
        extra: Vec::new(alloc),
    }
}

/// What the records of a job hold, in their order.
#[derive(Debug, Drop)]
pub struct RawJob {
    pub epoch: u64,
    /// In milliseconds since 1970-01-01 00:00:00 UTC.
    pub moment: u64,
    pub ranges: Vec<Range>,
    pub crls: Vec<RawCrl>,
    pub entries: Vec<RawEntry>,
}
