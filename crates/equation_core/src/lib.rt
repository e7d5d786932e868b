//! The equation that each identity gives a filter, the sizes of the systems that these equations make, and the shards
//! that cut a universe.
//! No call takes memory.
#![tactic(auto)]

mod draws;
mod hash;
mod known;
mod message;
mod sha256_rows;
mod shards;
mod sizes;

pub use draws::Draws;
pub use hash::{EquationHash, MAX_PLANES, Row, RowKey};
pub use known::{Known, draw_rows, draw_shards};
pub use sha256_rows::Sha256Rows;
pub use shards::{MAX_SHIFT, four_shards, shard_of};
pub use sizes::{MAX_STARTS, starts_for, words_for};
