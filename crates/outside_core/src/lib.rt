//! What a command reads from and writes to: files under names, and one stream of text; both in memory too, and a
//! file that is read in order.
#![tactic(auto)]

mod append;
mod depot;
mod feed;
mod fill;
mod memory;
mod piece;
mod sink;
mod slice;
mod window;

pub use append::append_all;
pub use depot::{Depot, Failed};
pub use feed::Feed;
pub use fill::pull;
pub use memory::{MemoryDepot, MemorySink};
pub use piece::copy_from;
pub use sink::{Sink, write_all};
pub use slice::SliceDepot;
