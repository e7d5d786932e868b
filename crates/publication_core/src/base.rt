ghost use Rattle.std.specs.Prelude.{◌≡◌};

use ledger_core::Ledger;
use part_codec::Sealed;
use std::marker::Model;

/// How many a chain that begins anew has of each.
#[derive(Clone, Copy, Debug, PartialEq, Eq)]
pub struct BaseCounts {
    /// The issuers that were enrolled in some part of the old chain and aren't left out.
    pub issuers: usize,
    /// The identities that are kept.
    pub universe: usize,
    /// Those of them that are revoked.
    pub revoked: usize,
    /// The identities that have expired and aren't left out.
    pub pruned: u32,
    /// The identities that are left out.
    pub left: u32,
}

/// What a rebase publishes: the part that begins a chain anew, the ledger after it, and the counts that are reported.
#[derive(Drop)]
pub struct BasePublication {
    sealed: Sealed,
    ledger: Ledger,
    counts: BaseCounts,
}

impl Model for BasePublication {
    ghost use Rattle.publication_core.specs.Rebasing.{BasePublicationFields};

    ghost Value = { BasePublicationFields };

    ghost view = { λ p. record { sealed = p.sealed; ledger = p.ledger; counts = p.counts } };
}

impl BasePublication {
    pub(crate) fn new(sealed: Sealed, ledger: Ledger, counts: BaseCounts) -> BasePublication
        ensures { result ≡ record { sealed = sealed; ledger = ledger; counts = counts } }
    {
        BasePublication {
            sealed,
            ledger,
            counts,
        }
    }

    /// The part, a snapshot.
    pub fn sealed(&self) -> &Sealed
        ensures { result.now ≡ self.now.sealed }
    {
        &self.sealed
    }

    /// The ledger of the new chain.
    pub fn ledger(&self) -> &Ledger
        ensures { result.now ≡ self.now.ledger }
    {
        &self.ledger
    }

    /// How many it has of each.
    pub fn counts(&self) -> &BaseCounts
        ensures { result.now ≡ self.now.counts }
    {
        &self.counts
    }
}
