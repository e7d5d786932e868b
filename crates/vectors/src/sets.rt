//! Sets of identities.

use crate::entries::put_identity;
use crate::rows::identity_in;
use ident_core::{place_of, sort_identities_once};
use std::alloc::Global;
use std::fmt::Write;
use std::test::Fail;

/// The place of an identity in the set of the identities `ISSUER SERIAL ..`, and the set in its order.
pub fn tell_identities(alloc: Global, asked: [&str; 2], words: &[&str]) -> Result<String, Fail> {
    let mut ids = Vec::new(alloc);
    for pair in words.chunks(2) {
        let [issuer, serial] = pair else {
            return Err(Fail::new("no identity"));
        };
        ids.push(identity_in(alloc, issuer, serial)?)?;
    }
    sort_identities_once(&mut ids);
    let place = place_of(&ids, &identity_in(alloc, asked[0], asked[1])?);
    let mut text = String::from_str(alloc, "no place")?;
    if let Some(place) = place {
        text = format!(in alloc; "place {place}")?;
    }
    for id in &ids {
        text.push_str("\n")?;
        put_identity(alloc, &mut text, id)?;
    }
    Ok(text)
}
