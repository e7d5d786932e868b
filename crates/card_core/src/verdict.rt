//! What parts say of a certificate.

ghost use Rattle.std.specs.Prelude.{◌≡◌, ◌≤◌, ◌+◌, ◌-◌, ◌*◌, [], ◌∷◌, length};
ghost use Rattle.card_core.specs.Verdict.{verdict, covering, said_by_both, AreProbes};

use crate::part::Part;
use equation_core::Sha256Rows;
use ident_core::{Identity, Sighting};
use octets_core::Steps;
use std::sync::ledger::Ledger;

/// What parts say of a certificate that was seen at some times.
#[derive(Clone, Copy, Debug, PartialEq, Eq)]
pub enum Verdict {
    /// No part covers one of the times.
    NotCovered,
    /// Parts cover one of the times, and none of these has a block of the certificate's issuer.
    NotEnrolled,
    /// Each block of the issuer in the covering parts tests negative.
    Good,
    /// One of them tests positive.
    Revoked,
}

impl Verdict {
    /// What two lists of parts say together, of which one says `self` and the other says `other`.
    pub fn joined_with(self, other: Verdict) -> Verdict
        ensures { result ≡ said_by_both self other }
    {
        match (self, other) {
            (Verdict::Revoked, _) | (_, Verdict::Revoked) => Verdict::Revoked,
            (Verdict::Good, _) | (_, Verdict::Good) => Verdict::Good,
            (Verdict::NotEnrolled, _) | (_, Verdict::NotEnrolled) => Verdict::NotEnrolled,
            (Verdict::NotCovered, Verdict::NotCovered) => Verdict::NotCovered,
        }
    }
}

impl Part {
    /// What the part says of the certificate, by rows of SHA-256. Its blocks are asked only where it covers one of the
    /// sightings. Each comparison of issuers is one probe, and each word that is read takes a step of `words`.
    pub fn verdict<L: Ledger, M: Ledger>(
        &self,
        id: &Identity,
        sightings: &[Sighting],
        probes: &mut Steps<L>,
        words: &mut Steps<M>,
    ) -> Verdict
        ensures value { result ≡ verdict (self.now ∷ []) id.now sightings.now }
        ensures more_probes { probes.old ≤ probes.new }
        ensures few_probes { AreProbes (covering sightings.now (self.now ∷ [])) (probes.new - probes.old) }
        ensures more_words { words.old ≤ words.new }
        ensures few_words { words.new ≤ words.old + 51 * length (covering sightings.now (self.now ∷ [])) }
    {
        if !self.covers(sightings) {
            return Verdict::NotCovered;
        }
        match self.consult(&Sha256Rows, id, probes, words) {
            None => Verdict::NotEnrolled,
            Some(true) => Verdict::Revoked,
            Some(false) => Verdict::Good,
        }
    }
}
