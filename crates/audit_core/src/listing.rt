//! What a ledger tells of an entry.

ghost use Rattle.std.specs.Prelude.{◌≡◌, is_some};
ghost use Rattle.ledger_core.specs.LedgerFields.{part_fields};
ghost use Rattle.universe_core.specs.Judging.{IsSearchable};
ghost use Rattle.audit_core.specs.Checking.{is_seen, listing as listing_of};

use ident_core::{holds_key, place_covering};
use ledger_core::{Ledger, LedgerPart};
use log_core::Entry;
use universe_core::known_of;

/// The place of the range of a part that covers the entry, if the part enrolls its issuer.
fn range_seeing(part: &LedgerPart, entry: &Entry) -> Option<usize>
    requires { IsSearchable part.now }
    ensures { is_some result ≡ is_seen (part_fields part.now) entry.now }
{
    let near = place_covering(&part.ranges, &entry.sighting)?;
    holds_key(&part.issuers, &entry.id.issuer).then_some(near)
}

/// Of an entry that the job of this part accepts, whether its certificate is listed; nothing of another entry. The part
/// is one of the ledger's, and the guess is where the certificate's item may stand.
pub(crate) fn listing(
    ledger: &Ledger,
    part: &LedgerPart,
    entry: &Entry,
    guess: usize,
) -> Option<bool>
    requires { IsSearchable part.now }
    ensures { result ≡ listing_of ledger.now (part_fields part.now) entry.now }
{
    let Some(near) = range_seeing(part, entry) else {
        return None;
    };
    let known = known_of(ledger, entry, near, Some(guess));
    if known.late {
        return None;
    }
    Some(known.listed)
}
