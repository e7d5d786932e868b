//! The lines that the program prints, each of which ends with one byte `0a`.
#![tactic(auto)]

mod about;
mod device;
mod line;
mod show;
mod status;
mod words;

pub use about::{
    Message, about_file, cert_line, coverage_line, crl_line, epoch_line, layout_line, limit_line,
    line_of, page_line, parent_line,
};
pub use device::{device_line, full_line};
pub use line::{
    Base, Line, audited, checked, cut, disagreement_line, gathered, merged, placed, rebased,
    rebased_without, reported, sampled, seeds_line, split, stored, verdict_line,
};
pub use show::write_sealed;
pub use status::Status;
