//! Bytes and their layouts: keys of 32 bytes, a cursor over bytes, the fields of this project's
//! layouts and what is wrong with one, and a counter of steps.
#![tactic(auto)]

mod cursor;
mod fault;
mod field;
mod key;
mod memory;
mod put;
mod reading;
mod steps;
pub mod vectors;

pub use cursor::{Cursor, Short};
pub use fault::{LayoutFault, Why};
pub use field::Field;
pub use key::{Key32, is_after, key_of, key_order};
pub use memory::NoMemory;
pub use put::{put_bytes, put_u8, put_u16, put_u24, put_u32, put_u64};
pub use reading::{
    read_digest, read_end, read_key, read_key_after, read_magic, read_u8, read_u16, read_u32,
    read_u64,
};
pub use steps::Steps;
