//! Which pieces keep a record.

ghost use Rattle.std.specs.Prelude.{◌≡◌, ◌<◌, IfSome};
ghost use Rattle.job_core.specs.Records.{item_shown};
ghost use Rattle.place_core.specs.Places.{place_in};
ghost use Rattle.piece_core.specs.Records.{place_of_record};

use crate::issuers::IssuerPlaces;
use ident_core::Identity;
use job_core::RecordText;
use log_core::read_entry;
use place_core::{By, PlaceCount, place_of as place_of_identity};

/// The place of an identity.
fn place_of_id(by: By, count: PlaceCount, id: &Identity, issuers: &mut IssuerPlaces) -> u32
    ensures value { result ≡ place_in by count id.now }
    ensures below { result < count }
{
    match by {
        By::Issuer => issuers.place_of(&id.issuer, count),
        By::Identity => place_of_identity(id, count),
    }
}

/// The place whose piece alone keeps the record; or none, where each piece does. An entry that can't be read has the
/// first.
pub fn place_of(
    by: By,
    count: PlaceCount,
    record: &RecordText<'_>,
    issuers: &mut IssuerPlaces,
) -> Option<u32>
    ensures value { result ≡ place_of_record by count (item_shown record.now) }
    ensures below { IfSome result (λ p. p < count) }
{
    match record {
        RecordText::Range(_) => None,
        RecordText::Crl { issuer, .. } => match by {
            By::Issuer => Some(issuers.place_of(issuer, count)),
            By::Identity => None,
        },
        RecordText::Entry { log, leaf, extra } => match read_entry(*log, leaf, extra) {
            Ok(entry) => Some(place_of_id(by, count, &entry.id, issuers)),
            Err(_) => Some(0),
        },
    }
}
