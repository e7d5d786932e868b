ghost use Rattle.std.specs.Prelude.{◌≡◌, List, ℕ, Option};
ghost use Rattle.std.specs.Option.{option_map};
ghost use Rattle.octets_core.specs.Walk.{ends, value_of, all_of};
ghost use Rattle.ident_core.specs.declared.range.Sighting.{Sighting};
ghost use Rattle.sct_core.specs.Timestamps.{version_1, timestamp_in, timestamp};
ghost use Rattle.sct_core.specs.Outcome.{of_timestamps};

use crate::CertFault;
use crate::timestamps::{Scts, Sightings};
use ident_core::Sighting;
use octets_core::key_of;
use octets_core::vectors::{split_bytes, split_number, split_some_vector, split_vector};

#[tactic(auto, unfolding(octets_core::specs::Walk::ends))]
pub(crate) fn nothing_left(bytes: &[u8]) -> Option<()>
    ensures { option_map (λ x. (x, bytes.now)) result ≡ ends bytes.now }
{
    match bytes {
        [] => Some(()),
        _ => None,
    }
}

/// What a timestamp of version 1 says behind its version.
#[tactic(auto, unfolding(crate::specs::Timestamps::version_1))]
fn version_1_of(bytes: &[u8]) -> Option<Sighting>
    ensures { result ≡ value_of (version_1 bytes.now) }
{
    let (id, rest) = split_bytes(bytes, 32)?;
    let log = key_of(id);
    let (time, rest) = split_number(rest, 8)?;
    let (_, rest) = split_vector(rest, 2)?;
    let (_, rest) = split_bytes(rest, 2)?;
    let (_, rest) = split_vector(rest, 2)?;
    nothing_left(rest)?;
    Some(Sighting { log, time })
}

/// What a timestamp says, where it is one of version 1.
fn timestamp_of(bytes: &[u8]) -> Option<Option<Sighting>>
    ensures { result ≡ timestamp_in bytes.now }
{
    let (version, rest) = bytes.split_first()?;
    if *version != 0 {
        return Some(None);
    }
    let sighting = version_1_of(rest)?;
    Some(Some(sighting))
}

/// The same of one with its length before it, and the bytes behind it.
#[tactic(auto, unfolding(crate::specs::Timestamps::timestamp))]
fn split_timestamp(bytes: &[u8]) -> Option<(Option<Sighting>, &[u8])>
    ensures { option_map {U = Option Sighting × List ℕ} (λ x. (x.0, x.1.now)) result ≡ timestamp bytes.now }
{
    let (front, rest) = split_some_vector(bytes, 2)?;
    let found = timestamp_of(front)?;
    Some((found, rest))
}

/// What comes of the timestamps that fill the bytes. All are read, also behind the last that has a place.
pub(crate) fn sightings_in(list: &[u8]) -> Result<Scts, CertFault>
    ensures { result ≡ of_timestamps (all_of timestamp list.now) }
{
    let mut rest = list;
    let mut kept = Sightings::new();
    let mut many = false;
    while rest.len() > 0 {
        let Some((found, after)) = split_timestamp(rest) else {
            return Err(CertFault::BadScts);
        };
        if let Some(sighting) = found {
            if kept.is_full() {
                many = true;
            } else {
                kept.push(sighting);
            }
        }
        rest = after;
    }
    if many {
        return Err(CertFault::TooManyScts);
    }
    if kept.is_empty() {
        return Err(CertFault::NoScts);
    }
    Ok(Scts::new(kept))
}
