//! The layout of a part and the text that it is written as: a part with its trailer, and the bytes of it.
#![tactic(auto)]

mod encode;
mod fault;
mod laws;
mod output;
mod sealed;
mod text;

pub use encode::{MAX_BLOCK, MAX_LEAF, encode_part};
pub use fault::PartFault;
pub use laws::{a_text_is_read_back, bytes_behind_change_nothing};
pub use sealed::{Sealed, seal};
pub use text::version_of;
