//! A store that is opened once: verdicts over bytes that are only lent. No call takes memory.
#![tactic(auto)]

mod block;
mod buckets;
mod check;
mod ends;
mod fill;
mod installing;
mod layout;
mod leaf;
mod opened;
mod part;
mod places;
mod plane;
mod ranges;
mod reading;
mod scan;
mod seen;
mod view;

pub use check::{StoreNote, check_store};
pub use fill::index_length;
pub use installing::{InstallFault, check_part, install};
pub use opened::{OpenFault, Opened, open};
pub use seen::Seen;
pub use view::View;
