ghost use Rattle.std.specs.Prelude.{◌≡◌};

use ledger_core::Ledger;
use part_codec::Sealed;
use std::marker::Model;
use universe_core::Counts;

/// What is published of a job: its part, the ledger after it, and the counts that are reported.
#[derive(Drop)]
pub struct Publication {
    place: u32,
    sealed: Sealed,
    ledger: Ledger,
    counts: Counts,
}

impl Model for Publication {
    ghost use Rattle.publication_core.specs.Publishing.{PublicationFields};

    ghost Value = { PublicationFields };

    ghost view = { λ p. record { place = p.place; sealed = p.sealed; ledger = p.ledger; counts = p.counts } };
}

impl Publication {
    pub(crate) fn new(place: u32, sealed: Sealed, ledger: Ledger, counts: Counts) -> Publication
        ensures { result ≡ record { place = place; sealed = sealed; ledger = ledger; counts = counts } }
    {
        Publication {
            place,
            sealed,
            ledger,
            counts,
        }
    }

    /// The place of the part in its chain, counted from 0.
    pub fn place(&self) -> u32
        ensures { result ≡ self.now.place }
    {
        self.place
    }

    /// The job's part.
    pub fn sealed(&self) -> &Sealed
        ensures { result.now ≡ self.now.sealed }
    {
        &self.sealed
    }

    /// The ledger after the job.
    pub fn ledger(&self) -> &Ledger
        ensures { result.now ≡ self.now.ledger }
    {
        &self.ledger
    }

    /// How many the job has of each.
    pub fn counts(&self) -> &Counts
        ensures { result.now ≡ self.now.counts }
    {
        &self.counts
    }

    /// The job's part, and the ledger after it.
    pub fn into_sealed_and_ledger(self) -> (Sealed, Ledger)
        ensures { result ≡ (self.sealed, self.ledger) }
    {
        (self.sealed, self.ledger)
    }
}
