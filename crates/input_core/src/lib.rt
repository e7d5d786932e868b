//! The files that commands read: what each is read as, and what is wrong with them.
#![tactic(auto)]

mod certificates;
mod fault;
mod fed;
mod input;
mod inputs;
mod jobs;
mod laws;
mod parts;
mod query;
mod query_reading;
mod scanning;
mod stores;

pub use certificates::{Certificate, certificate_in, issuer_in};
pub use fault::{FileFault, QueriesFault};
pub use input::{InputFault, read_up_to};
pub use inputs::{ledger_in, queries_in};
pub use jobs::job_in;
pub use laws::{a_text_is_read_back, only_a_text_is_read, queries_of_one_text_are_the_same};
pub use parts::part_in;
pub use query::{Asked, MAX_QUERIES, MAX_SIGHTINGS, Sightings};
pub use query_reading::read_queries;
pub use scanning::{ScanFault, scan_file};
pub use stores::store_in;
