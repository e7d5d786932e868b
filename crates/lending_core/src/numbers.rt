//! The numbers of answers. No verdict is 0, so that a place that nothing was written to holds none, and each refusal
//! is above each verdict.

/// Done: what was asked for stands in what was lent for it.
pub const DONE: u32 = 0;

/// No part covers one of the sightings.
pub const NOT_COVERED: u32 = 1;
/// Parts cover one of the sightings, and none of these has a block of the certificate's issuer.
pub const NOT_ENROLLED: u32 = 2;
/// The certificate isn't revoked.
pub const GOOD: u32 = 3;
/// The certificate is revoked.
pub const REVOKED: u32 = 4;

/// A field of the store isn't all there.
pub const LAYOUT_SHORT: u32 = 16;
/// A field of the store fails its test.
pub const LAYOUT_VALUE: u32 = 17;
/// A digest in the store isn't that of the bytes before it.
pub const LAYOUT_DIGEST: u32 = 18;

/// The first part of the store is a delta.
pub const NOT_SNAPSHOT: u32 = 32;
/// A later part of the store is a snapshot.
pub const NOT_DELTA: u32 = 33;
/// A part's parent isn't the trailer of the part before it.
pub const WRONG_PARENT: u32 = 34;
/// A part's epoch isn't above that of the part before it.
pub const OLD_EPOCH: u32 = 35;
/// A range of the part before it lies in none of a part's.
pub const COVERAGE_SHRINKS: u32 = 36;
/// There are 64 parts before it.
pub const CHAIN_FULL: u32 = 37;
/// The store has 2^32 bytes or more.
pub const STORE_TOO_LONG: u32 = 38;

/// The serial has no octet, or more than 32.
pub const BAD_SERIAL: u32 = 48;
/// The sightings of a query aren't among those that are lent.
pub const BAD_SIGHTINGS: u32 = 49;
/// The places aren't 1 to 65,536, or are by neither issuers nor identities.
pub const BAD_PLACES: u32 = 50;

/// The certificate isn't one of the profile.
pub const CERT_MALFORMED: u32 = 64;
/// The certificate carries no timestamp of version 1.
pub const CERT_NO_SCTS: u32 = 65;
/// The certificate's list of timestamps can't be read.
pub const CERT_BAD_SCTS: u32 = 66;
/// The certificate carries more than 64 timestamps of version 1.
pub const CERT_TOO_MANY_SCTS: u32 = 67;
/// The issuer's certificate isn't one of the profile.
pub const ISSUER_CERT_MALFORMED: u32 = 68;

/// The index has fewer words than are wanted.
pub const INDEX_TOO_SHORT: u32 = 80;
/// The room for the new store has fewer bytes than are wanted.
pub const ROOM_TOO_SHORT: u32 = 81;
/// The size that a struct says isn't that of this interface.
pub const BAD_SIZE: u32 = 82;

/// Want of memory.
pub const NO_MEMORY: u32 = 112;
