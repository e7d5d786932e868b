//! Parts of a filter and their blocks, and what they say of a certificate. No call takes memory.
#![tactic(auto)]

mod block;
mod existence;
mod fours;
mod laws;
mod leaf;
mod mixed;
mod part;
mod sharded;
mod stage;
mod verdict;

pub use block::{Block, Body};
pub use existence::{a_filter_or_a_refusal, a_leaf_or_a_refusal};
pub use fours::Inquiry;
pub use laws::{
    block_is_exact, block_is_unique, body_is_of_one_leaf, cuts_are_of_shards, filter_is_exact,
    filter_is_unique, leaf_is_exact, leaf_is_unique, one_shard_is_refused, one_stage_is_refused,
    one_stage_refuses_filter, refused_has_no_block, refused_has_no_filter, refused_has_no_leaf,
};
pub use leaf::Leaf;
pub use mixed::Mixed;
pub use part::{MAX_BLOCKS, Part};
pub use sharded::Sharded;
pub use stage::{Stage, accepts, accepts_row};
pub use verdict::Verdict;
