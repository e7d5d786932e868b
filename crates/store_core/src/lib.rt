//! A client's store: a chain of 1 to 64 parts, the rules by which it takes a further part, what its parts say together
//! of a certificate, and the bytes that it is written as.
#![tactic(auto)]

mod asking;
mod chain;
mod decode;
mod encode;
mod fault;
mod laws;
mod newest;
mod reader;
mod store;

pub use asking::{parts_say, parts_say_of_four};
pub use card_core::{Inquiry, Verdict};
pub use chain::{Refusal, Refused};
pub use decode::decode_store;
pub use encode::encode_store;
pub use fault::StoreFault;
pub use laws::{chains_grow, refusals_are_exact, stores_are_read_back, what_is_read_is_a_chain};
pub use reader::StoreReader;
pub use store::{StartFault, Store};
