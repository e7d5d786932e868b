//! How many of each thing there may be.

/// The most octets of a serial that is in the profile. RFC 5280 (4.1.2.2) asks for 20; this project takes more.
pub const MAX_SERIAL: usize = 32;

/// The most ranges that the head of a part holds.
pub const MAX_RANGES: usize = 1024;

/// The most issuers that a part, or a part in a ledger, speaks of.
pub const MAX_ISSUERS: usize = 65_535;

/// The most identities that a chain accepts.
pub const MAX_IDENTITIES: usize = 4_194_304;

/// The most parts of a chain.
pub const MAX_PARTS: usize = 64;

/// The most workers that a part is built by.
pub const MAX_WORKERS: usize = 64;

/// The most entries of a job that is made to try the program on.
pub const MAX_SAMPLE: usize = 1_000_000;
