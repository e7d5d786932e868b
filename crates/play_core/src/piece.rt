//! The pieces that a file is put together from, by the tables of docs/FORMATS.md.

use crate::files::Files;
use sha2::{Digest, Sha256};
use std::alloc::Global;
use std::test::Fail;

/// The date T, as DER.
const DATE: &[u8] = b"\x17\x0d231114221320Z";

/// A second before it.
const BEFORE: &[u8] = b"\x17\x0d231114221319Z";

/// What stands in front of a CRL's next date: a version, the algorithm ecdsa-with-SHA256, an issuer's name without
/// contents, and the date T.
const FRONT: &[u8] =
    b"\x02\x01\x01\x30\x0a\x06\x08\x2a\x86\x48\xce\x3d\x04\x03\x02\x30\x00\x17\x0d231114221320Z";

/// What stands behind the list: the algorithm and an empty signature.
const SIGNED: &[u8] = b"\x30\x0a\x06\x08\x2a\x86\x48\xce\x3d\x04\x03\x02\x03\x01\x00";

/// Puts what hexadecimal digits spell behind the bytes.
fn put_hex(alloc: Global, bytes: &mut Vec<u8>, digits: &str) -> Result<(), Fail> {
    bytes.extend_from_slice(&hex::decode(alloc, digits)?)?;
    Ok(())
}

/// The same of several words.
fn put_words(alloc: Global, bytes: &mut Vec<u8>, words: &[&str]) -> Result<(), Fail> {
    for word in words {
        put_hex(alloc, bytes, word)?;
    }
    Ok(())
}

/// Puts a number of decimal digits behind the bytes, in 8 bytes.
fn put_number(bytes: &mut Vec<u8>, word: &str) -> Result<(), Fail> {
    bytes.extend_from_slice(&word.parse::<u64>()?.to_be_bytes())?;
    Ok(())
}

/// Puts these behind the bytes, with their length of 3 bytes before them.
fn put_counted(bytes: &mut Vec<u8>, these: &[u8]) -> Result<(), Fail> {
    let len = u32::try_from(these.len())?.to_be_bytes();
    bytes.extend_from_slice(&len[1..])?;
    bytes.extend_from_slice(these)?;
    Ok(())
}

/// An element of DER with these contents, of less than 65,536 bytes.
fn element(alloc: Global, tag: u8, contents: &[u8]) -> Result<Vec<u8>, Fail> {
    let [high, low] = u16::try_from(contents.len())?.to_be_bytes();
    let mut bytes = Vec::new(alloc);
    bytes.push(tag)?;
    if high > 0 {
        bytes.extend_from_slice(&[0x82, high])?;
    } else if low >= 128 {
        bytes.push(0x81)?;
    }
    bytes.push(low)?;
    bytes.extend_from_slice(contents)?;
    Ok(bytes)
}

/// The entries of a CRL of these serials.
fn entries_of(alloc: Global, serials: &[&str]) -> Result<Vec<u8>, Fail> {
    let mut entries = Vec::new(alloc);
    for serial in serials {
        let mut entry = element(alloc, 0x02, &hex::decode(alloc, serial)?)?;
        entry.extend_from_slice(DATE)?;
        entries.extend_from_slice(&element(alloc, 0x30, &entry)?)?;
    }
    Ok(entries)
}

/// A CRL of these serials, with this next date.
fn crl_of(alloc: Global, next: &[u8], serials: &[&str]) -> Result<Vec<u8>, Fail> {
    let mut list = FRONT.to_vec(alloc)?;
    list.extend_from_slice(next)?;
    let entries = entries_of(alloc, serials)?;
    if !entries.is_empty() {
        list.extend_from_slice(&element(alloc, 0x30, &entries)?)?;
    }
    let mut crl = element(alloc, 0x30, &list)?;
    crl.extend_from_slice(SIGNED)?;
    element(alloc, 0x30, &crl)
}

/// The record of a CRL of less than 65,536 bytes.
fn put_crl(
    alloc: Global,
    bytes: &mut Vec<u8>,
    issuer: &str,
    next: &[u8],
    serials: &[&str],
) -> Result<(), Fail> {
    put_hex(alloc, bytes, "02")?;
    put_hex(alloc, bytes, issuer)?;
    put_hex(alloc, bytes, "00")?;
    put_counted(bytes, &crl_of(alloc, next, serials)?)
}

/// The TBS of a precertificate, which holds its serial and what is behind that.
fn tbs_of(alloc: Global, serial: &str, behind: &str) -> Result<Vec<u8>, Fail> {
    let mut contents = element(alloc, 0x02, &hex::decode(alloc, serial)?)?;
    put_hex(alloc, &mut contents, behind)?;
    element(alloc, 0x30, &contents)
}

/// The leaf of the entry of a precertificate.
fn leaf_of(alloc: Global, issuer: &str, time: &str, tbs: &[u8]) -> Result<Vec<u8>, Fail> {
    let mut leaf = Vec::new(alloc);
    put_hex(alloc, &mut leaf, "0000")?;
    put_number(&mut leaf, time)?;
    put_hex(alloc, &mut leaf, "0001")?;
    put_hex(alloc, &mut leaf, issuer)?;
    put_counted(&mut leaf, tbs)?;
    put_hex(alloc, &mut leaf, "0000")?;
    Ok(leaf)
}

/// The record of an entry with this leaf.
fn put_entry(alloc: Global, bytes: &mut Vec<u8>, log: &str, leaf: &[u8]) -> Result<(), Fail> {
    put_hex(alloc, bytes, "03")?;
    put_hex(alloc, bytes, log)?;
    put_counted(bytes, leaf)?;
    put_hex(alloc, bytes, "000000")
}

/// The beginning of a job.
fn put_job(bytes: &mut Vec<u8>, epoch: &str, moment: &str) -> Result<(), Fail> {
    bytes.extend_from_slice(b"CLUBJOB1")?;
    put_number(bytes, epoch)?;
    put_number(bytes, moment)
}

/// The record of a range.
fn put_range(
    alloc: Global,
    bytes: &mut Vec<u8>,
    log: &str,
    from: &str,
    to: &str,
) -> Result<(), Fail> {
    put_hex(alloc, bytes, "01")?;
    put_hex(alloc, bytes, log)?;
    put_number(bytes, from)?;
    put_number(bytes, to)
}

/// Puts what the words of a job's record say behind the bytes.
fn put_record(alloc: Global, bytes: &mut Vec<u8>, words: &[&str]) -> Result<(), Fail> {
    match words {
        ["job", epoch, moment] => put_job(bytes, epoch, moment),
        ["range", log, from, to] => put_range(alloc, bytes, log, from, to),
        ["crl", issuer, serials @ ..] => put_crl(alloc, bytes, issuer, b"", serials),
        ["fresh-crl", issuer, serials @ ..] => put_crl(alloc, bytes, issuer, DATE, serials),
        ["stale-crl", issuer, serials @ ..] => put_crl(alloc, bytes, issuer, BEFORE, serials),
        ["entry", issuer, serial, log, time] => {
            let tbs = tbs_of(alloc, serial, "")?;
            put_entry(alloc, bytes, log, &leaf_of(alloc, issuer, time, &tbs)?)
        }
        ["entry", issuer, serial, log, time, behind] => {
            let tbs = tbs_of(alloc, serial, behind)?;
            put_entry(alloc, bytes, log, &leaf_of(alloc, issuer, time, &tbs)?)
        }
        ["end"] => put_hex(alloc, bytes, "00"),
        _ => Err(Fail::new("no such piece")),
    }
}

/// Sets the byte at a place.
pub(crate) fn set_byte(bytes: &mut Vec<u8>, at: usize, value: u8) -> Result<(), Fail> {
    match bytes.get_mut(at) {
        Some(byte) => {
            *byte = value;
            Ok(())
        }
        None => Err(Fail::new("no such byte")),
    }
}

/// Puts the digest of the bytes from a place on behind them.
fn put_digest(bytes: &mut Vec<u8>, from: usize) -> Result<(), Fail> {
    let digest = Sha256::digest(bytes.get(from..).unwrap_or(&[]));
    bytes.extend_from_slice(&digest)?;
    Ok(())
}

/// Does with the bytes of a file, as they stand so far, what the words of a piece say.
pub(crate) fn put_piece(
    alloc: Global,
    files: &Files,
    bytes: &mut Vec<u8>,
    words: &[&str],
) -> Result<(), Fail> {
    match words {
        ["hex", digits @ ..] => put_words(alloc, bytes, digits),
        ["repeat", count, digits @ ..] => {
            for _ in 0..count.parse::<u32>()? {
                put_words(alloc, bytes, digits)?;
            }
            Ok(())
        }
        ["copy", name] => {
            let held = files.get(*name).ok_or("no such file")?;
            bytes.extend_from_slice(held)?;
            Ok(())
        }
        ["cut", len] => {
            bytes.truncate(len.parse::<usize>()?);
            Ok(())
        }
        ["byte", at, value] => set_byte(
            bytes,
            at.parse::<usize>()?,
            u8::from_str_radix(value, 16)?,
        ),
        ["zeros", len] => {
            bytes.resize(len.parse::<usize>()?, 0)?;
            Ok(())
        }
        ["digest", from] => put_digest(bytes, from.parse::<usize>()?),
        _ => put_record(alloc, bytes, words),
    }
}
