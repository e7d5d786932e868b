//! The calls of the filter's layers, by their names.

use crate::calls::bytes_of;
use crate::parts::tell_part;
use crate::rows::tell_sizes;
use crate::stages::{RowsByLength, tell_asked, tell_block};
use crate::stores::tell_install;
use equation_core::Sha256Rows;
use play_core::Files;
use std::alloc::Global;
use std::test::Fail;

/// What the call of these words gives.
pub fn given_filter(alloc: Global, files: &Files, words: &[&str]) -> Result<String, Fail> {
    match words {
        ["sizes", of, numbers @ ..] => tell_sizes(alloc, of, numbers),
        ["block", members @ ..] => tell_block(alloc, &Sha256Rows, members),
        ["block-by-length", members @ ..] => tell_block(alloc, &RowsByLength, members),
        ["asked", members @ ..] => tell_asked(alloc, members),
        ["part", part] => tell_part(alloc, &bytes_of(alloc, files, part)?),
        ["install", first, parts @ ..] => tell_install(alloc, files, first, parts),
        _ => Err(Fail::new("no such call")),
    }
}
