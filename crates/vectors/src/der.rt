//! Elements, lists of elements and times of DER.

use der_core::read::{element, elements};
use der_core::{Element, time};
use std::alloc::Global;
use std::fmt::Write;
use std::test::Fail;

/// The first element: its tag, its contents, and how many bytes it has.
pub fn tell_element(alloc: Global, bytes: &[u8]) -> Result<String, Fail> {
    match element(bytes) {
        Ok((found, taken)) => {
            let contents = hex::encode(alloc, found.contents)?;
            let tag = found.tag;
            Ok(format!(in alloc; "tag {tag:02x} bytes {taken} contents {contents}")?)
        }
        Err(fault) => Ok(format!(in alloc; "{fault:?}")?),
    }
}

/// The tags and the contents of the elements, up to the first fault, and what comes behind that.
pub fn tell_elements(alloc: Global, contents: &[u8]) -> Result<String, Fail> {
    let mut text = String::from_str(alloc, "elements")?;
    for item in elements(contents) {
        match item {
            Ok(found) => {
                let contents = hex::encode(alloc, found.contents)?;
                let tag = found.tag;
                write!(text, " {tag:02x}:{contents}")?;
            }
            Err(fault) => write!(text, " {fault:?}")?,
        }
    }
    Ok(text)
}

/// The time of an element of this tag and these contents.
pub fn tell_time(alloc: Global, tag: u8, contents: &[u8]) -> Result<String, Fail> {
    match time(&Element { tag, contents }) {
        Ok(seconds) => Ok(format!(in alloc; "{seconds}")?),
        Err(fault) => Ok(format!(in alloc; "{fault:?}")?),
    }
}
