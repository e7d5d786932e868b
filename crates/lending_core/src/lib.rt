//! What a store says, of bytes that are lent: for programs in other languages, which have no value of this project's
//! types. Each call reads what it is lent and keeps nothing of it, and each answer has a number.
#![tactic(auto)]

mod asking;
mod facts;
mod fault;
mod installing;
mod lent;
pub mod numbers;
mod opened;
mod opening;
mod placing;
mod replies;

pub use asking::{examine, query, query_cert, query_each};
pub use facts::{InstallFacts, OpenedFacts, PartFacts};
pub use fault::LentFault;
pub use installing::{check_lent_part, install_lent};
pub use lent::{LentQuery, LentSighting};
pub use opened::{ask, ask_cert, ask_each, covered_until};
pub use opening::{index_words, open_store};
pub use placing::{BY_IDENTITY, BY_ISSUER, place};
pub use replies::{Answer, StoreFacts};
