//! What the program says of what a command came to: how it ends, and the line.
#![tactic(auto)]

mod reply;

pub use reply::Reply;
