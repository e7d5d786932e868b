//! The words of a line.

use std::alloc::{AllocError, Global};
use std::collections::BTreeMap;

/// What names stand for.
pub type Names = BTreeMap<String, String>;

/// The 14th of November 2023 at 22:13:20 UTC, in milliseconds since 1970.
const T: u64 = 1_700_000_000_000;

/// The time that `T`, `T+N` or `T-N` spells.
fn time_of(word: &str) -> Option<u64> {
    let rest = word.strip_prefix('T')?;
    if rest.is_empty() {
        return Some(T);
    }
    match rest.strip_prefix('+') {
        Some(later) => Some(T.saturating_add(later.parse::<u64>().ok()?)),
        None => Some(T.saturating_sub(rest.strip_prefix('-')?.parse::<u64>().ok()?)),
    }
}

/// What a word says: what its name stands for, a time, nothing for `""`, a word and the end of a line for one that ends
/// with `\n`, or itself.
fn said(alloc: Global, names: &Names, word: &str) -> Result<String, AllocError> {
    if let Some(text) = names.get(word) {
        return text.clone();
    }
    if let Some(time) = time_of(word) {
        return format!(in alloc; "{time}");
    }
    if word == "\"\"" {
        return Ok(String::new(alloc));
    }
    match word.strip_suffix("\\n") {
        Some(front) => format!(in alloc; "{front}\n"),
        None => String::from_str(alloc, word),
    }
}

/// What the words of a line say.
pub(crate) fn words_of(
    alloc: Global,
    names: &Names,
    line: &str,
) -> Result<Vec<String>, AllocError> {
    let mut words = Vec::new(alloc);
    for word in line.split_whitespace() {
        words.push(said(alloc, names, word)?)?;
    }
    Ok(words)
}
