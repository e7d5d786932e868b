//! The publisher's memory of a chain of parts: the parts that it published, the identities that it accepted, and the
//! bytes that both are kept as.
#![tactic(auto)]

mod decode;
mod encode;
mod fault;
mod fields;
mod laws;
mod ledger;

pub use decode::decode_ledger;
pub use encode::{encode_ledger, encode_ledger_pieces};
pub use fault::LedgerFault;
pub use fields::{LedgerItem, LedgerPart};
pub use laws::{a_text_is_read_back, only_a_text_is_read};
pub use ledger::{Draft, Ledger};
