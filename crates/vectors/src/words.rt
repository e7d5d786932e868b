//! Words of the program.

use crate::entries::{put_identity, put_sighting};
use play_core::Files;
use std::alloc::Global;
use std::fmt::Write;
use std::test::Fail;
use word_core::command::{Command, Left, Rebase};
use word_core::read_words;

/// A command that begins a chain anew. Of a place's chain the moment is told, and the place by what it is.
fn put_rebase(text: &mut String, rebase: &Rebase<'_>) -> Result<(), Fail> {
    let moment = rebase.moment;
    match &rebase.left {
        Left::Issuers(_) => text.push_str("command")?,
        Left::OtherPlaces { by, count, place } => {
            let (by, count, place) = (*by, count.get(), *place);
            write!(text, "split at {moment} by {by:?} place {place} of {count}")?;
        }
    }
    Ok(())
}

/// `usage`, or a command. Of a query its certificate and its sightings are told, of a sample its number and its count,
/// of a place by what it is, the certificate and the count.
fn put_command(alloc: Global, text: &mut String, command: &Command<'_>) -> Result<(), Fail> {
    match command {
        Command::Usage => text.push_str("usage")?,
        Command::Query(query) => {
            text.push_str("query ")?;
            put_identity(alloc, text, &query.id)?;
            for seen in query.sightings.as_slice() {
                put_sighting(alloc, text, seen)?;
            }
        }
        Command::Sample(sample) => {
            let (number, count) = (sample.number, sample.count.get());
            write!(text, "sample {number} entries {count}")?;
        }
        Command::Place(place) => {
            let (by, count) = (place.by, place.count.get());
            write!(text, "place by {by:?} ")?;
            put_identity(alloc, text, &place.id)?;
            write!(text, " of {count}")?;
        }
        Command::Rebase(rebase) => put_rebase(text, rebase)?,
        _ => text.push_str("command")?,
    }
    Ok(())
}

/// What words are. A word that names a file is what that holds.
pub fn tell_words(alloc: Global, files: &Files, words: &[&str]) -> Result<String, Fail> {
    let mut said = Vec::new(alloc);
    for word in words {
        let bytes = files
            .get(*word)
            .map_or(word.as_bytes(), |held| held.as_slice());
        said.push(String::from_str(alloc, str::from_utf8(bytes)?)?)?;
    }
    let mut text = String::new(alloc);
    match read_words(alloc, &said) {
        Ok(command) => put_command(alloc, &mut text, &command)?,
        Err(_) => return Err(Fail::new("no memory")),
    }
    Ok(text)
}
