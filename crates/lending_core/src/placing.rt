//! The place of a certificate among so many.

ghost use Rattle.std.specs.Prelude.{◌≡◌};
ghost use Rattle.place_core.specs.Places.{place_count};
ghost use Rattle.lending_core.specs.Asking.{way_of, some_places, place_gives};
ghost use Rattle.lending_core.specs.Replies.{IsPlaced};

use crate::fault::LentFault;
use crate::lent::serial_from;
use crate::numbers;
use crate::replies::fault_answer;
use ident_core::Identity;
use octets_core::Key32;
use place_core::{By, MAX_PLACES, PlaceCount, place_in};

/// Places are by issuers.
pub const BY_ISSUER: u32 = 1;
/// Places are by identities.
pub const BY_IDENTITY: u32 = 2;

/// By what places are.
fn way_of(by: u32) -> Result<By, LentFault>
    ensures { result ≡ way_of by }
{
    match by {
        BY_ISSUER => Ok(By::Issuer),
        BY_IDENTITY => Ok(By::Identity),
        _ => Err(LentFault::BadPlaces),
    }
}

/// So many places.
fn places_of(count: u64) -> Result<PlaceCount, LentFault>
    ensures { result ≡ some_places (place_count count) }
{
    if count > MAX_PLACES as u64 {
        return Err(LentFault::BadPlaces);
    }
    PlaceCount::new(count as u32).ok_or(LentFault::BadPlaces)
}

fn placed(by: u32, issuer: &[u8; 32], serial: &[u8], count: u64) -> Result<u32, LentFault>
    ensures { result ≡ place_gives by issuer.now serial.now count }
{
    let serial = match serial_from(serial) {
        Ok(serial) => serial,
        Err(fault) => return Err(fault),
    };
    let issuer = Key32::new(*issuer);
    let id = Identity { issuer, serial };
    let by = match way_of(by) {
        Ok(by) => by,
        Err(fault) => return Err(fault),
    };
    let count = match places_of(count) {
        Ok(count) => count,
        Err(fault) => return Err(fault),
    };
    Ok(place_in(by, &id, count))
}

/// Writes the place of the certificate with this issuer key's hash and this serial among so many, by `BY_ISSUER` or
/// `BY_IDENTITY`; or 0 for the first fault, of the serial and then of the places.
pub fn place(by: u32, issuer: &[u8; 32], serial: &[u8], count: u64, place: &mut u64) -> u32
    ensures { IsPlaced (place_gives by issuer.now serial.now count) place.new result }
{
    match placed(by, issuer, serial, count) {
        Ok(found) => {
            *place = u64::from(found);
            numbers::DONE
        }
        Err(fault) => {
            *place = 0;
            fault_answer(fault).number
        }
    }
}
