//! The calls of the layers that read jobs and words, by their names.

use crate::calls::{bytes_of, given};
use crate::classes::tell_classes;
use crate::feeds::tell_records;
use crate::jobs::tell_job;
use crate::sets::tell_identities;
use crate::words::tell_words;
use play_core::{Faults, Files};
use std::alloc::Global;
use std::test::Fail;

/// What the call of these words gives. The reads that it makes fail so, and are counted.
pub fn given_reading(
    alloc: Global,
    files: &Files,
    words: &[&str],
    faults: Faults,
    reads: &mut u64,
) -> Result<String, Fail> {
    match words {
        ["job", file] => tell_job(alloc, &bytes_of(alloc, files, file)?, [u32::MAX; 4]),
        ["job-limits", ranges, crls, serials, entries, file] => {
            let most = [
                ranges.parse::<u32>()?,
                crls.parse::<u32>()?,
                serials.parse::<u32>()?,
                entries.parse::<u32>()?,
            ];
            tell_job(alloc, &bytes_of(alloc, files, file)?, most)
        }
        ["classes", ledger, job] => tell_classes(alloc, files, [ledger, job]),
        ["records", asked, file] => {
            let bytes = bytes_of(alloc, files, file)?;
            tell_records(alloc, &bytes, asked.parse::<u32>()?, faults, reads)
        }
        ["identities", issuer, serial, ids @ ..] => tell_identities(alloc, [issuer, serial], ids),
        ["words", words @ ..] => tell_words(alloc, files, words),
        _ => given(alloc, files, words),
    }
}
