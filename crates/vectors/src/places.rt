//! Places among so many.

use ident_core::Identity;
use place_core::{PlaceCount, place_of, place_of_issuer};
use std::alloc::Global;
use std::fmt::Write;
use std::test::Fail;

/// The places of an identity and of its issuer, among each of so many.
pub fn tell_places(alloc: Global, id: &Identity, counts: &[&str]) -> Result<String, Fail> {
    let mut by_identity = String::from_str(alloc, "by identity")?;
    let mut by_issuer = String::from_str(alloc, "by issuer")?;
    for count in counts {
        let Some(count) = PlaceCount::new(count.parse::<u32>()?) else {
            by_identity.push_str(" none")?;
            by_issuer.push_str(" none")?;
            continue;
        };
        let (own, shared) = (place_of(id, count), place_of_issuer(&id.issuer, count));
        write!(by_identity, " {own}")?;
        write!(by_issuer, " {shared}")?;
    }
    Ok(format!(in alloc; "{by_identity}\n{by_issuer}")?)
}
