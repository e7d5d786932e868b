//! How many of each thing there may be.

/// The most bytes of a certificate whose timestamps are read.
pub const MAX_CERTIFICATE: usize = 1_048_576;

/// The most timestamps of version 1 in a certificate.
pub const MAX_SCTS: usize = 64;
