//! Building a part: the block of each group, in the order of their issuers.
#![tactic(auto)]

mod assembling;
mod building;
mod built;
mod cuts;
mod drawing;
mod existence;
mod fault;
mod format;
mod gate;
mod laws;
mod members;
mod outcome;
mod outcomes;
mod task;
mod tasks;

pub use building::{build_part, build_part_claimed};
pub use existence::blocks_or_a_refusal;
pub use fault::BuildFault;
pub use format::Format;
pub use gate::{Gate, Open};
pub use laws::{
    group_block_is_exact, group_blocks_are_unique, one_is_first_refused, outcomes_are_unique,
    outcomes_give_blocks, refused_has_no_blocks, shards_are_unique,
};
