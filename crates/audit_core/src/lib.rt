//! An auditor of stores: whether the parts of a store, whoever built them, say the truth of each certificate that some
//! jobs accepted.
#![tactic(auto)]

mod admitting;
mod auditing;
mod checking;
mod fault;
mod laws;
mod listing;

pub use auditing::{Audited, audit};
pub use fault::AuditFault;
pub use laws::{agreement_is_enough, audits_are_unique, audits_exist, one_sighting_is_enough};
