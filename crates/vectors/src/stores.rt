//! What stores take, and what they give back.

use crate::calls::bytes_of;
use card_core::Part;
use ident_core::{Head, Kind};
use part_codec::{Sealed, decode_part, encode_part, seal};
use play_core::Files;
use std::alloc::Global;
use std::fmt::Write;
use std::test::Fail;
use store_core::{StartFault, Store};

fn put_given_back(alloc: Global, text: &mut String, part: &Sealed) -> Result<(), Fail> {
    let digits = hex::encode(alloc, &encode_part(alloc, part)?)?;
    write!(text, "\ngiven back {digits}")?;
    Ok(())
}

/// The part that a file holds; or for an epoch, a delta with neither ranges nor blocks that follows the newest part.
fn part_of(alloc: Global, files: &Files, newest: &Sealed, word: &str) -> Result<Sealed, Fail> {
    let Ok(epoch) = word.parse::<u64>() else {
        return Ok(decode_part(alloc, &bytes_of(alloc, files, word)?)?.0);
    };
    let head = Head::new(Kind::Delta, epoch, newest.trailer(), Vec::new(alloc));
    Ok(seal(Part::new(head, Vec::new(alloc))))
}

/// What comes of a store that the first part begins, and of the others, one behind the other.
pub fn tell_install(
    alloc: Global,
    files: &Files,
    first: &str,
    words: &[&str],
) -> Result<String, Fail> {
    let mut text = String::from_str(alloc, "install")?;
    let (part, _) = decode_part(alloc, &bytes_of(alloc, files, first)?)?;
    let mut store = match Store::start(alloc, part) {
        Ok(store) => store,
        Err(StartFault::NotSnapshot(part) | StartFault::NoMemory(part)) => {
            put_given_back(alloc, &mut text, &part)?;
            return Ok(text);
        }
    };
    for word in words {
        let part = part_of(alloc, files, store.parts().last().ok_or("no part")?, word)?;
        match store.install(part) {
            Ok(()) => text.push_str(" taken")?,
            Err(refused) => put_given_back(alloc, &mut text, &refused.part)?,
        }
    }
    let count = store.parts().len();
    write!(text, "\nparts {count}")?;
    Ok(text)
}
