//! Pages of a log's `get-entries` answers, and their entries behind those of a job.
#![tactic(auto)]

mod counting;
mod fault;
mod job;
mod page;
mod texts;

pub use fault::PageFault;
pub use job::OpenJob;
pub use page::{MAX_DATA, MAX_PAGE, PageEntry, read_page};
pub use texts::{EntryTexts, Piece, read_piece};
