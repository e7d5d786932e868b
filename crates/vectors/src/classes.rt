//! What the entries of jobs are.

use crate::calls::bytes_of;
use job_core::{Limits, read_job};
use ledger_core::decode_ledger;
use play_core::Files;
use std::alloc::Global;
use std::fmt::Write;
use std::test::Fail;
use universe_core::class_of;

/// What each entry of the second file's job is, behind the ledger of the first one, or for `-` in a first job.
pub fn tell_classes(alloc: Global, files: &Files, of: [&str; 2]) -> Result<String, Fail> {
    let mut text = String::from_str(alloc, "classes")?;
    let ledger = match of[0] {
        "-" => None,
        name => Some(decode_ledger(alloc, &bytes_of(alloc, files, name)?)?),
    };
    let job = read_job(alloc, &bytes_of(alloc, files, of[1])?, &Limits::PUBLISHED)?;
    for entry in 0..job.entries.len() {
        let class = class_of(ledger.as_ref(), &job, entry);
        write!(text, " {class:?}")?;
    }
    Ok(text)
}
