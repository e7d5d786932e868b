//! What is lent, in the layout of C.

ghost use Rattle.std.specs.Prelude.{◌≡◌, map, Ok, Err, IfOk, IfErr};
ghost use Rattle.lending_core.specs.Lent.{sighting_of, serial_of, serial_in, slice_in};

use crate::fault::LentFault;
use ident_core::{MAX_SERIAL, Serial, Sighting};
use octets_core::Key32;
use std::alloc::{AllocError, Global};
use view_core::Seen;

/// When a log saw a certificate.
#[repr(C)]
#[derive(Clone, Copy, Debug, PartialEq, Eq)]
pub struct LentSighting {
    /// The log's id.
    pub log: [u8; 32],
    /// The time, in milliseconds since 1970.
    pub time: u64,
}

/// A query among others of one store, whose sightings stand in one list.
#[repr(C)]
#[derive(Clone, Copy, Debug, PartialEq, Eq)]
pub struct LentQuery {
    /// The SHA-256 of the issuer's DER SubjectPublicKeyInfo.
    pub issuer: [u8; 32],
    /// The octets of the serial, from the first place on.
    pub serial: [u8; 32],
    /// How many they are.
    pub serial_len: u32,
    /// The place of the query's first sighting in the list, from 0.
    pub first_sighting: u32,
    /// How many sightings are the query's.
    pub sightings: u32,
    /// The number of the answer, which the call writes.
    pub answer: u32,
}

impl Seen for LentSighting {
    ghost use Rattle.lending_core.specs.Lent.{sighting_of};

    ghost sighting = { λ s. sighting_of s };

    fn sighting(&self) -> Sighting {
        Sighting {
            log: Key32::new(self.log),
            time: self.time,
        }
    }
}

/// The sightings that are lent.
pub(crate) fn sightings_of(
    alloc: Global,
    lent: &[LentSighting],
) -> Result<Vec<Sighting>, AllocError>
    ensures { IfOk result (λ v. v.items ≡ map sighting_of lent.now) }
{
    lent.iter()
        .map(|s| Sighting {
            log: Key32::new(s.log),
            time: s.time,
        })
        .collect(alloc)
}

/// The serial of these octets.
pub(crate) fn serial_from(octets: &[u8]) -> Result<Serial, LentFault>
    ensures { result ≡ serial_of octets.now }
{
    Ok(Serial::new(octets)?)
}

/// The serial of a query.
pub(crate) fn serial_within(query: &LentQuery) -> Result<Serial, LentFault>
    ensures { result ≡ serial_in query.now }
{
    let len = query.serial_len as usize;
    if len > MAX_SERIAL {
        return Err(LentFault::BadSerial);
    }
    serial_from(&query.serial[..len])
}

/// The query's own of all sightings.
pub(crate) fn slice_within<'a, T>(query: &LentQuery, all: &'a [T]) -> Result<&'a [T], LentFault>
    ensures ok { IfOk result (λ s. slice_in query.now all.now ≡ Ok s.now) }
    ensures err { IfErr result (λ e. slice_in query.now all.now ≡ Err e) }
{
    let first = query.first_sighting as usize;
    let behind = first + query.sightings as usize;
    if behind > all.len() {
        return Err(LentFault::BadSightings);
    }
    Ok(&all[first..behind])
}
