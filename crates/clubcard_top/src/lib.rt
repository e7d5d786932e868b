//! The top call `run`, whose clauses say what the program does: how each answer is sent, and what follows of it.
#![tactic(auto)]

mod laws;
mod sending;
mod top;

pub use command_core::{
    rehearsals_go_file_by_file, replies_are_unique, replies_exist, workers_are_free,
};
pub use laws::{bases_are_made, histories_are_made};
pub use line_core::Status;
pub use publication_core::{Gate, Open};
pub use store_core::{Refusal, Refused, StartFault, Store, Verdict};
pub use top::{run, run_gated};
