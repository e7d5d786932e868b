//! The calls, by their names.

use crate::crls::tell_crl;
use crate::der::{tell_element, tell_elements, tell_time};
use crate::entries::{tell_entry, tell_issuer, tell_queries, tell_timestamps};
use crate::filters::given_filter;
use crate::places::tell_places;
use crate::reading::given_reading;
use crate::rows::{identity_in, tell_row, tell_shards};
use crate::systems::{tell_sums, tell_system};
use play_core::{Commands, Ending, Faults, Files};
use std::alloc::Global;
use std::collections::BTreeMap;
use std::test::Fail;
use std::thread::Threads;

/// The bytes of a word: those of the file that it names, or else those that it spells in hexadecimal.
pub fn bytes_of(alloc: Global, files: &Files, word: &str) -> Result<Vec<u8>, Fail> {
    match files.get(word) {
        Some(bytes) => Ok(bytes.clone()?),
        None => Ok(hex::decode(alloc, word)?),
    }
}

/// What the call of these words gives.
pub fn given(alloc: Global, files: &Files, words: &[&str]) -> Result<String, Fail> {
    match words {
        ["element", bytes] => tell_element(alloc, &bytes_of(alloc, files, bytes)?),
        ["elements", bytes] => tell_elements(alloc, &bytes_of(alloc, files, bytes)?),
        ["time", tag, text] => tell_time(alloc, u8::from_str_radix(tag, 16)?, text.as_bytes()),
        ["entry", leaf, extra] => {
            let leaf = bytes_of(alloc, files, leaf)?;
            tell_entry(alloc, &leaf, &bytes_of(alloc, files, extra)?)
        }
        ["crl", bytes] => tell_crl(alloc, &bytes_of(alloc, files, bytes)?),
        ["system", starts, planes, equations @ ..] => {
            tell_system(alloc, [starts, planes], equations)
        }
        ["sums", starts, planes, rows, equations @ ..] => {
            tell_sums(alloc, [starts, planes], rows, equations)
        }
        ["issuer", cert] => tell_issuer(alloc, &bytes_of(alloc, files, cert)?),
        ["timestamps", cert] => tell_timestamps(alloc, &bytes_of(alloc, files, cert)?),
        ["queries", file] => tell_queries(alloc, &bytes_of(alloc, files, file)?),
        ["row", stage, seed, issuer, serial, starts] => {
            let id = identity_in(alloc, issuer, serial)?;
            tell_row(alloc, [stage, seed], &id, starts.parse::<u32>()?)
        }
        ["shards", issuer, serial] => tell_shards(alloc, &identity_in(alloc, issuer, serial)?),
        ["places", issuer, serial, counts @ ..] => {
            tell_places(alloc, &identity_in(alloc, issuer, serial)?, counts)
        }
        _ => given_filter(alloc, files, words),
    }
}

/// The calls.
#[derive(Clone, Copy)]
pub struct Calls;

impl Commands for Calls {
    ghost shared = { λ calls. Unit {0} };

    fn call<R: Threads + Sync>(
        &self,
        _rt: &R,
        alloc: Global,
        files: &Files,
        words: &[String],
        faults: Faults,
    ) -> Result<Ending, Fail> {
        let words: Vec<&str> = words.iter().map(|word| word.as_str()).collect(alloc)?;
        let mut reads = 0;
        let mut text = given_reading(alloc, files, &words, faults, &mut reads)?;
        text.push_str("\n")?;
        Ok(Ending {
            text,
            changed: BTreeMap::new(alloc),
            reads,
            writes: 0,
            prints: 0,
            disk_calls: 0,
        })
    }
}
