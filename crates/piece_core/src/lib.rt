//! A job's text, cut to places: what each place keeps of its records.
#![tactic(auto)]

mod cutting;
mod issuers;
mod record;
mod texts;

pub use cutting::{Pieces, cut_text};
