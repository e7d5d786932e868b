//! Files and a stream in memory. Their calls are numbered, and can be made to fail by their numbers.
mod calls;
mod depot;
mod entries;
mod sink;

pub use depot::MemoryDepot;
pub use sink::MemorySink;
