//! Log entries, certificates with timestamps, and query files.

use ident_core::{Identity, Sighting};
use input_core::{QueriesFault, read_queries};
use log_core::{Entry, issuer_hash, read_entry};
use octets_core::{Key32, LayoutFault};
use sct_core::{cert_serial, scts};
use std::alloc::Global;
use std::fmt::Write;
use std::test::Fail;

/// The first field that is short or fails its test.
pub fn put_fault(text: &mut String, fault: LayoutFault) -> Result<(), Fail> {
    let (at, field, why) = (fault.at, fault.field, fault.why);
    write!(text, " {at} {field:?} {why:?}")?;
    Ok(())
}

/// An identity.
pub fn put_identity(alloc: Global, text: &mut String, id: &Identity) -> Result<(), Fail> {
    let issuer = hex::encode(alloc, id.issuer.bytes().as_slice())?;
    let serial = hex::encode(alloc, id.serial.bytes())?;
    write!(text, "issuer {issuer} serial {serial}")?;
    Ok(())
}

/// A sighting.
pub fn put_sighting(alloc: Global, text: &mut String, seen: &Sighting) -> Result<(), Fail> {
    let log = hex::encode(alloc, seen.log.bytes().as_slice())?;
    let time = seen.time;
    write!(text, " log {log} time {time}")?;
    Ok(())
}

/// What an entry says.
pub fn put_entry(alloc: Global, text: &mut String, entry: &Entry) -> Result<(), Fail> {
    put_identity(alloc, text, &entry.id)?;
    put_sighting(alloc, text, &entry.sighting)?;
    match entry.until {
        Some(until) => write!(text, " until {until}")?,
        None => text.push_str(" until never")?,
    }
    Ok(())
}

/// The hash by which the issuer with this certificate goes.
pub fn tell_issuer(alloc: Global, cert: &[u8]) -> Result<String, Fail> {
    match issuer_hash(cert) {
        Ok(hash) => {
            let digits = hex::encode(alloc, hash.bytes().as_slice())?;
            Ok(format!(in alloc; "issuer {digits}")?)
        }
        Err(_) => Ok(String::from_str(alloc, "unread")?),
    }
}

/// What the entry with this leaf and this extra data says, in a log of 32 bytes `aa`.
pub fn tell_entry(alloc: Global, leaf: &[u8], extra: &[u8]) -> Result<String, Fail> {
    let mut text = String::new(alloc);
    match read_entry(Key32::new([0xaa; 32]), leaf, extra) {
        Ok(entry) => put_entry(alloc, &mut text, &entry)?,
        Err(_) => text.push_str("unread")?,
    }
    Ok(text)
}

/// The serial of a certificate and its timestamps.
pub fn tell_timestamps(alloc: Global, cert: &[u8]) -> Result<String, Fail> {
    let mut text = String::new(alloc);
    match cert_serial(cert) {
        Ok(serial) => {
            let digits = hex::encode(alloc, serial.bytes())?;
            write!(text, "serial {digits}")?;
        }
        Err(fault) => write!(text, "no serial: {fault:?}")?,
    }
    match scts(cert) {
        Ok(found) => {
            for seen in found.sightings() {
                put_sighting(alloc, &mut text, seen)?;
            }
        }
        Err(fault) => write!(text, " {fault:?}")?,
    }
    Ok(text)
}

/// The queries of a file.
pub fn tell_queries(alloc: Global, file: &[u8]) -> Result<String, Fail> {
    let mut text = String::from_str(alloc, "queries")?;
    match read_queries(alloc, file) {
        Ok(queries) => {
            for query in &queries {
                text.push_str(" ")?;
                put_identity(alloc, &mut text, &query.identity)?;
                for seen in query.sightings.as_slice() {
                    put_sighting(alloc, &mut text, seen)?;
                }
            }
        }
        Err(QueriesFault::Layout(fault)) => put_fault(&mut text, fault)?,
        Err(QueriesFault::NoMemory) => text.push_str(" no memory")?,
    }
    Ok(text)
}
