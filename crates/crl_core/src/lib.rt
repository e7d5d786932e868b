//! CRLs (RFC 5280, 5.1 to 5.3), read in one pass: the dates and the serials, or why the CRL isn't taken.
#![tactic(auto)]

mod crl;
mod extension;
mod findings;

pub use crl::{Crl, CrlFault, read_crl};
pub use extension::{Extension, extension_of};
