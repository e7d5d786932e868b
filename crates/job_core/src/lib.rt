//! Jobs, the publisher's input: an epoch and a moment, the ranges that are covered, CRLs and log entries.
#![tactic(auto)]

mod bounds;
mod fault;
mod fetch;
mod laws;
mod meaning;
mod partial;
mod raw;
mod read_facts;
mod reader;
mod reading;
mod reading_from;
mod record_texts;
mod records;
mod walking;
mod writing;

pub use bounds::{Limits, What};
pub use fault::JobFault;
pub use laws::{a_job_is_its_text, records_are_texts};
pub use meaning::{Job, JobCrl};
pub use raw::{RawCrl, RawEntry, RawJob};
pub use read_facts::jobs_that_are_read_fit;
pub use reader::{JobReader, Record};
pub use reading::read_job;
pub use reading_from::read_job_from;
pub use record_texts::RecordText;
pub use walking::JobRecords;
pub use writing::{job_fits, write_job};
