//! Real files and the terminal, as a depot, a disk and a sink. They tell contracts no contents, and count each error.
#![tactic(auto)]

mod ahead;
mod disk;
mod files;
mod terminal;

pub use disk::FileDisk;
pub use files::FileDepot;
pub use terminal::Terminal;
