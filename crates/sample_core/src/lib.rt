//! The generator of large jobs: a number and a count of entries stand for one job, which is written as it is made.
#![tactic(auto)]

mod buffer;
mod crl;
mod digests;
mod entry;
mod head;
mod laws;
mod sample;

pub use laws::{samples_are_accepted, samples_are_jobs};
pub use sample::SampleJob;
