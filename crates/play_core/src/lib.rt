//! Files of scenarios: what their lines say is played by commands, and a transcript tells what came of it. README.md
//! has the language.
#![tactic(auto)]

mod ending;
mod files;
mod piece;
mod play;
mod round;
mod trial;
mod word;

pub use ending::{Commands, Ending, Faults, told};
pub use files::Files;
pub use play::transcript_of;
