//! Lateness, as admission and all others judge it.

ghost use Rattle.std.specs.Prelude.{◌≡◌, ◌<◌, ◌&&◌, length, map, take, All};
ghost use Rattle.std.specs.List.{list_any};
ghost use Rattle.ident_core.specs.Coverage.{covers};
ghost use Rattle.ident_core.specs.Sets.{has_key};
ghost use Rattle.ledger_core.specs.LedgerFields.{part_fields};
ghost use Rattle.universe_core.specs.Judging.{IsSearchable};
ghost use Rattle.universe_core.specs.Ledgers.{birth_or, last_or_none, past_in};

use crate::finding::item_of;
use ident_core::{Sighting, covers_near, holds_key};
use ledger_core::{Ledger, LedgerItem, LedgerPart};
use log_core::Entry;
use octets_core::Key32;

fn some_lacks(parts: &[LedgerPart], issuer: &Key32, sighting: &Sighting, near: usize) -> bool
    requires { All IsSearchable parts.now }
    ensures { result ≡ list_any (λ p. covers p.ranges.items sighting.now && has_key p.issuers.items issuer.now) parts.now }
{
    for part in parts {
        if covers_near(&part.ranges, near, sighting) && holds_key(&part.issuers, issuer) {
            return true;
        }
    }
    false
}

/// Whether one of so many of the parts covers the sighting and enrolls the issuer. The place of the log's range is
/// guessed.
pub(crate) fn is_late(
    parts: &[LedgerPart],
    birth: usize,
    issuer: &Key32,
    sighting: &Sighting,
    near: usize,
) -> bool
    requires { All IsSearchable parts.now }
    ensures { result ≡ list_any (λ p. covers p.ranges sighting.now && has_key p.issuers issuer.now)
        (take birth (map part_fields parts.now)) }
{
    some_lacks(&parts[..birth.min(parts.len())], issuer, sighting, near)
}

pub(crate) fn birth_of(parts: &[LedgerPart], old: &Option<LedgerItem>) -> u8
    requires { length parts.now < 256 }
    ensures { result ≡ birth_or (length parts.now) old.now }
{
    match old {
        Some(item) => item.birth,
        None => parts.len() as u8,
    }
}

pub(crate) fn last_of(old: &Option<LedgerItem>) -> Option<u8>
    ensures { result ≡ last_or_none old.now }
{
    match old {
        Some(item) => item.last,
        None => None,
    }
}

/// What a ledger tells of an entry.
#[derive(Clone, Copy, Debug, PartialEq, Eq)]
pub struct Known {
    /// Whether a part before the birth of the certificate covers the entry and enrolls the issuer.
    pub late: bool,
    /// Whether a part revoked the certificate.
    pub listed: bool,
}

/// What a ledger tells of an entry. The places of the log's range and of the certificate's item are guessed. It takes
/// no memory.
pub fn known_of(ledger: &Ledger, entry: &Entry, near: usize, guess: Option<usize>) -> Known
    ensures late { result.late ≡ (past_in ledger.now).comes_late entry.now.id entry.now.sighting }
    ensures listed { result.listed ≡ (past_in ledger.now).listed_before entry.now.id }
{
    let parts = ledger.parts();
    let item = item_of(ledger.items(), &entry.id, guess);
    let birth = birth_of(parts, &item) as usize;
    Known {
        late: is_late(parts, birth, &entry.id.issuer, &entry.sighting, near),
        listed: last_of(&item).is_some(),
    }
}
