//! DER (ITU-T X.690, this project's profile), read without memory: elements and times.
//!
//! `read::element` and `read::elements` read; the types are `Element` and `Elements` of this module. `walk` reads
//! elements in order, some of them optional, as the ASN.1 of a format states them.
#![tactic(auto)]

mod moment;
pub mod read;
mod types;
mod values;
pub mod walk;

pub use moment::time;
pub use types::{BadTime, DerFault, Element, Elements};
pub use values::{boolean, octets, oid, truth_of};
