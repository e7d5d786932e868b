//! The part that bytes begin with, whole and in pieces.
#![tactic(auto)]

mod collector;
mod decode;
mod fields;
mod machine;
mod pile;
mod reader;
mod scan;
mod walk;

pub use decode::decode_part;
pub use part_text::{
    PartFault, Sealed, a_text_is_read_back, bytes_behind_change_nothing, encode_part, seal,
    version_of,
};
pub use reader::PartReader;
pub use scan::{PartNote, PartScan};
