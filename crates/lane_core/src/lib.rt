//! SHA-256 (FIPS 180-4) of two or four short messages at once, in lanes of the processor's vectors.
//! No call takes memory.
#![tactic(auto)]

mod compression;
mod padding;
mod schedule;
mod single;
mod states;
mod words;

pub use padding::MAX_MESSAGE;
pub use states::{digests, two_digests};
