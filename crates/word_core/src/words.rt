//! The pieces that words spell: names, keys, serials, numbers (docs/FORMATS.md, "Words").

ghost use Rattle.std.specs.Prelude.{◌≡◌, ◌*◌, IfOk, IfSome, length, map, string_bytes};
ghost use Rattle.std.specs.List.{list_all, list_any};
ghost use Rattle.std.specs.Str.{bytes_eq};
ghost use Rattle.std.specs.Char.{is_ascii_digit};
ghost use Rattle.std.specs.Option.{option_map};
ghost use Rattle.word_core.specs.Words.{name_of, names_of, two_names_of, pairs_of, key_word, keys_of, serial_of, number_of};
ghost use Rattle.word_core.specs.Words.{workers_of, count_of, by_of, places_of, place_below, is_among, are_apart, is_name, is_plain};

use crate::bounded::{Count, SampleCount, Workers};
use crate::command::FileName;
use hex::FromHex;
use ident_core::{MAX_SAMPLE, MAX_WORKERS, Serial, Sighting};
use octets_core::{Key32, NoMemory};
use place_core::{By, MAX_PLACES, PlaceCount};
use std::alloc::Global;

fn all_plain(bytes: &[u8]) -> bool
    ensures { result ≡ list_all is_plain bytes.now }
{
    bytes.iter().all(|b| 32 <= *b && *b != 127)
}

/// Whether a word may name a file.
fn is_file_name(word: &str) -> bool
    ensures { result ≡ is_name word.now }
{
    if word.is_empty() || word.len() > 4096 {
        return false;
    }
    all_plain(word.as_bytes())
}

pub(crate) fn key_word(word: &str) -> Option<Key32>
    ensures { result ≡ key_word word.now }
{
    let bytes = <[u8; 32] as FromHex>::from_hex(word).ok()?;
    Some(Key32::new(bytes))
}

pub(crate) fn serial_word(word: &str) -> Option<Serial>
    ensures { result ≡ serial_of word.now }
{
    if word.len() < 2 || word.len() > 64 {
        return None;
    }
    let mut octets = [0u8; 32];
    let len = word.len() / 2;
    match hex::decode_to_slice(word, &mut octets[..len]) {
        Ok(()) => Serial::new(&octets[..len]).ok(),
        Err(_) => None,
    }
}

fn all_digits(bytes: &[u8]) -> bool
    ensures { result ≡ list_all is_ascii_digit bytes.now }
{
    bytes.iter().all(|b| b.is_ascii_digit())
}

pub(crate) fn number_word(word: &str) -> Option<u64>
    ensures { result ≡ number_of word.now }
{
    if word.len() < 1 || word.len() > 20 || !all_digits(word.as_bytes()) {
        return None;
    }
    match word.parse::<u64>() {
        Ok(n) => Some(n),
        Err(_) => None,
    }
}

/// The number of workers that a word spells, 1 to `MAX_WORKERS`.
pub(crate) fn workers_word(word: &str) -> Option<Workers>
    ensures { result ≡ workers_of word.now }
{
    let n = number_word(word)?;
    if n < 1 || n > MAX_WORKERS as u64 {
        return None;
    }
    Some(Count::new(n as u32))
}

/// The count that a word spells, 1 to `MAX_SAMPLE`.
pub(crate) fn count_word(word: &str) -> Option<SampleCount>
    ensures { result ≡ count_of word.now }
{
    let n = number_word(word)?;
    if n < 1 || n > MAX_SAMPLE as u64 {
        return None;
    }
    Some(Count::new(n as u32))
}

/// By what a history is cut, as a word says it.
pub(crate) fn by_word(word: &str) -> Option<By>
    ensures { result ≡ by_of word.now }
{
    match word {
        "issuer" => Some(By::Issuer),
        "identity" => Some(By::Identity),
        _ => None,
    }
}

/// The count of places that a word spells, 1 to `MAX_PLACES`.
pub(crate) fn places_word(word: &str) -> Option<PlaceCount>
    ensures { result ≡ places_of word.now }
{
    let n = number_word(word)?;
    if n > MAX_PLACES as u64 {
        return None;
    }
    PlaceCount::new(n as u32)
}

/// The place among so many that a word spells.
pub(crate) fn place_word(word: &str, count: PlaceCount) -> Option<u32>
    ensures { result ≡ place_below count word.now }
{
    let place = number_word(word)?;
    if place < count.get() as u64 {
        Some(place as u32)
    } else {
        None
    }
}

/// The sightings that words spell, two words each.
pub(crate) fn read_pairs(alloc: Global, words: &[String]) -> Result<Option<Vec<Sighting>>, NoMemory>
    ensures value { IfOk result (λ o. option_map (λ v. v.items) o ≡ pairs_of (map string_bytes words.now)) }
    ensures len { IfOk result (λ o. IfSome o (λ v. 2 * length v.items ≡ length words.now)) }
{
    let mut sightings = Vec::new(alloc);
    let mut rest = words;
    while let [log, time, others @ ..] = rest {
        let Some(log) = key_word(log.as_str()) else {
            return Ok(None);
        };
        let Some(time) = number_word(time.as_str()) else {
            return Ok(None);
        };
        if sightings.push(Sighting { log, time }).is_err() {
            return Err(NoMemory);
        }
        rest = others;
    }
    if rest.len() != 0 {
        return Ok(None);
    }
    Ok(Some(sightings))
}

/// The name that a word spells, if it spells one.
pub(crate) fn read_name(word: &str) -> Option<FileName<'_>>
    ensures { result ≡ name_of word.now }
{
    if is_file_name(word) {
        Some(FileName::new(word))
    } else {
        None
    }
}

/// Two names that two words spell, if each spells one.
pub(crate) fn read_two_names<'a>(
    first: &'a str,
    second: &'a str,
) -> Option<(FileName<'a>, FileName<'a>)>
    ensures { result ≡ two_names_of first.now second.now }
{
    let first = read_name(first)?;
    let second = read_name(second)?;
    Some((first, second))
}

/// The names that words spell, if each spells one.
pub(crate) fn read_names(
    alloc: Global,
    words: &[String],
) -> Result<Option<Vec<FileName<'_>>>, NoMemory>
    ensures value { IfOk result (λ o. option_map (λ v. v.items) o ≡ names_of (map string_bytes words.now)) }
    ensures len { IfOk result (λ o. IfSome o (λ v. length v.items ≡ length words.now)) }
{
    let mut names = Vec::with_capacity(alloc, words.len())?;
    for word in words {
        let Some(name) = read_name(word.as_str()) else {
            return Ok(None);
        };
        names.push(name)?;
    }
    Ok(Some(names))
}

/// The keys that words spell, if each spells one.
pub(crate) fn read_keys(alloc: Global, words: &[String]) -> Result<Option<Vec<Key32>>, NoMemory>
    ensures value { IfOk result (λ o. option_map (λ v. v.items) o ≡ keys_of (map string_bytes words.now)) }
    ensures len { IfOk result (λ o. IfSome o (λ v. length v.items ≡ length words.now)) }
{
    let mut keys = Vec::with_capacity(alloc, words.len())?;
    for word in words {
        let Some(key) = key_word(word.as_str()) else {
            return Ok(None);
        };
        keys.push(key)?;
    }
    Ok(Some(keys))
}

fn is_among(name: &FileName<'_>, names: &[FileName<'_>]) -> bool
    ensures { result ≡ is_among name.now names.now }
{
    names.iter().any(|other| other.as_str() == name.as_str())
}

/// Whether no output has the name of an input or of another output.
pub(crate) fn are_apart(inputs: &[FileName<'_>], outputs: &[FileName<'_>]) -> bool
    ensures { result ≡ are_apart inputs.now outputs.now }
{
    let mut rest = outputs;
    while let [output, others @ ..] = rest {
        if is_among(output, inputs) || is_among(output, others) {
            return false;
        }
        rest = others;
    }
    true
}
