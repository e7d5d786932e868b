//! The signed certificate timestamps that a certificate carries (RFC 6962, 3.2 and 3.3), and its serial (RFC 5280,
//! 4.1.2.2). No call takes memory.
#![tactic(auto)]

pub mod bounds;
mod certificate;
mod fault;
mod list;
mod timestamps;

pub use certificate::{cert_serial, scts};
pub use fault::CertFault;
pub use timestamps::Scts;
