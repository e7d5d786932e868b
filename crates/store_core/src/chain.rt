//! The rules of a chain: what a part must be to follow the newest part.

ghost use Rattle.std.specs.Prelude.{◌≡◌};
ghost use Rattle.store_core.specs.Chain.{broken};

use ident_core::{Kind, shrinks};
use octets_core::Key32;
use part_codec::Sealed;

/// Why a chain doesn't take a part.
#[derive(Clone, Copy, Debug, PartialEq, Eq)]
pub enum Refusal {
    /// The part is a snapshot.
    NotDelta,
    /// The part's parent (`given`) isn't the trailer of the newest part (`held`).
    WrongParent { held: Key32, given: Key32 },
    /// The part's epoch (`given`) isn't above that of the newest part (`held`).
    OldEpoch { held: u64, given: u64 },
    /// A range of the newest part, of this log, lies in none of the part's.
    CoverageShrinks { log: Key32 },
    /// The chain has `MAX_PARTS` parts already.
    Full,
}

/// A part that a chain doesn't take, and why.
#[derive(Drop)]
pub struct Refused {
    pub part: Sealed,
    pub why: Refusal,
}

/// Why the part doesn't follow the part that is held.
pub(crate) fn broken_by(held: &Sealed, given: &Sealed) -> Option<Refusal>
    ensures { result ≡ broken held.now given.now }
{
    let (old, new) = (held.part().head(), given.part().head());
    if new.kind() == Kind::Snapshot {
        return Some(Refusal::NotDelta);
    }
    if held.trailer() != new.parent() {
        return Some(Refusal::WrongParent {
            held: held.trailer(),
            given: new.parent(),
        });
    }
    if new.epoch() <= old.epoch() {
        return Some(Refusal::OldEpoch {
            held: old.epoch(),
            given: new.epoch(),
        });
    }
    shrinks(old.ranges(), new.ranges()).map(|log| Refusal::CoverageShrinks { log })
}
