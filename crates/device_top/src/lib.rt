//! The commands on a device, which holds a store in two slots, and their top call `run_device`, whose clauses say what
//! they do, also where a crash cuts them short.
#![tactic(auto)]

mod commands;
mod held;
mod top;

pub use line_core::Status;
pub use top::run_device;
