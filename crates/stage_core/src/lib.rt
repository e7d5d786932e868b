//! Building the filter of an issuer: two stages of ribbon equations, each solved at the least seed at which they are
//! solvable.
#![tactic(auto)]

mod block;
mod fault;
mod hashing;
mod in_threads;
mod keys;
mod leaf;
mod passing;
mod rows;
mod seeds;
mod shift;
mod width;

pub use block::{build_block, build_block_wide, build_leaf};
pub use fault::BlockFault;
pub use shift::shift_for;
