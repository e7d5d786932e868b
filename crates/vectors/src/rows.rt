//! Rows and shards by SHA-256, and sizes.

use equation_core::{EquationHash, Sha256Rows, shard_of, starts_for, words_for};
use ident_core::{Identity, Serial};
use octets_core::Key32;
use stage_core::shift_for;
use std::alloc::Global;
use std::fmt::Write;
use std::test::Fail;

/// The identity of an issuer's hash and a serial.
pub fn identity_of(issuer: &[u8], serial: &[u8]) -> Result<Identity, Fail> {
    Ok(Identity {
        issuer: Key32::new(<[u8; 32]>::try_from(issuer)?),
        serial: Serial::new(serial)?,
    })
}

/// The same of hexadecimal digits.
pub fn identity_in(alloc: Global, issuer: &str, serial: &str) -> Result<Identity, Fail> {
    let issuer = hex::decode(alloc, issuer)?;
    identity_of(&issuer, &hex::decode(alloc, serial)?)
}

/// The row of an identity, at a stage and a seed.
pub fn tell_row(alloc: Global, at: [&str; 2], id: &Identity, starts: u32) -> Result<String, Fail> {
    if starts == 0 {
        return Err(Fail::new("no start"));
    }
    let row = Sha256Rows.row(at[0].parse::<u8>()?, at[1].parse::<u8>()?, id, starts);
    let (start, coeff, tag) = (row.start, row.coeff, row.tag);
    Ok(format!(in alloc; "start {start} coeff {coeff:032x} tag {tag:04x}")?)
}

/// The shards of an identity, from a shift of 0 to one of 8.
pub fn tell_shards(alloc: Global, id: &Identity) -> Result<String, Fail> {
    let mut text = String::from_str(alloc, "shards")?;
    for shift in 0..9u8 {
        let shard = shard_of(id, shift);
        write!(text, " {shard}")?;
    }
    Ok(text)
}

/// The starts of so many keys, the words of a plane of so many starts, or the bits that tell the shards of
/// `REVOKED:UNIVERSE`.
fn size(of: &str, word: &str) -> Result<u64, Fail> {
    let (revoked, count) = word.split_once(':').unwrap_or(("0", word));
    let (revoked, count) = (revoked.parse::<u32>()?, count.parse::<u32>()?);
    match of {
        "starts" if count <= 4_194_304 => Ok(u64::from(starts_for(count))),
        "words" if count >= 1 && count <= 4_718_593 => Ok(words_for(count) as u64),
        "shift" if revoked <= count && count <= 4_194_304 => Ok(shift_for(count, revoked).into()),
        _ => Err(Fail::new("no such size")),
    }
}

/// The size of each word.
pub fn tell_sizes(alloc: Global, of: &str, words: &[&str]) -> Result<String, Fail> {
    let mut text = String::from_str(alloc, of)?;
    for word in words {
        let size = size(of, word)?;
        write!(text, " {size}")?;
    }
    Ok(text)
}
