//! Stores: how one begins, how it takes a further part, and what it says of a certificate.

ghost use Rattle.std.specs.Prelude.{◌≡◌, ◌++◌, ◌≤◌, ◌+◌, ◌-◌, ◌*◌, [], ◌∷◌, map, length, Some, None, IfOk, IfErr, OnOk, OnErr};
ghost use Rattle.card_core.specs.Verdict.{verdict, covering, AreProbes};
ghost use Rattle.ident_core.specs.declared.bounds.TheConstants.{MAX_PARTS};
ghost use Rattle.store_core.specs.Chain.{newest_of, refusal_of, IsChain};
ghost use Rattle.store_core.specs.Starting.{IsNotBegun};

use crate::asking::{counted_verdict, parts_say};
use crate::chain::{Refusal, Refused, broken_by};
use card_core::Verdict;
use ident_core::{Identity, Kind, MAX_PARTS, Sighting};
use octets_core::Steps;
use part_codec::Sealed;
use std::alloc::Global;
use std::marker::Model;
use std::sync::ledger::Ledger;

/// A chain of 1 to `MAX_PARTS` parts with their trailers, oldest first: the first is a snapshot, and each later one is
/// a delta that follows the part before it. It has room for `MAX_PARTS`.
#[derive(Drop)]
pub struct Store {
    parts: Vec<Sealed>,
}

impl Model for Store {
    ghost use Rattle.std.specs.Prelude.{List, ◌≤◌, vec_capacity};
    ghost use Rattle.ident_core.specs.declared.bounds.TheConstants.{MAX_PARTS};
    ghost use Rattle.part_text.specs.SealedFields.{SealedFields};
    ghost use Rattle.store_core.specs.Chain.{IsStore};

    ghost Value = { List SealedFields };

    ghost view = { λ s. s.parts.items };

    ghost invariant = { λ s. IsStore s.parts.items × (MAX_PARTS ≤ vec_capacity s.parts) };
}

/// Why a part begins no store. The part is given back.
#[derive(Drop)]
pub enum StartFault {
    /// The part is a delta.
    NotSnapshot(Sealed),
    /// Want of memory.
    NoMemory(Sealed),
}

impl Store {
    /// The store of this part alone, which is a snapshot. Room for `MAX_PARTS` parts is taken.
    pub fn start(alloc: Global, part: Sealed) -> Result<Store, StartFault>
        ensures store { IfOk result (λ store. store ≡ part ∷ []) }
        ensures snapshot { OnOk result (part.part.head.kind ≡ Kind.Snapshot) }
        ensures refused { IfErr result (IsNotBegun part) }
    {
        if part.part().head().kind() == Kind::Delta {
            return Err(StartFault::NotSnapshot(part));
        }
        let Ok(mut parts) = Vec::with_capacity(alloc, MAX_PARTS) else {
            return Err(StartFault::NoMemory(part));
        };
        parts.push(part).unwrap();
        Ok(Store { parts })
    }

    fn newest(&self) -> &Sealed
        ensures { newest_of self.now ≡ Some result.now }
    {
        &self.parts[self.parts.len() - 1]
    }

    /// Why the chain doesn't take the part.
    fn refusal(&self, part: &Sealed) -> Option<Refusal>
        ensures { result ≡ refusal_of self.now part.now }
    {
        let full = (self.parts.len() >= MAX_PARTS).then_some(Refusal::Full);
        broken_by(self.newest(), part).or(full)
    }

    /// Takes the part behind the others. A part that is refused is given back. No memory is taken.
    pub fn install(&mut self, part: Sealed) -> Result<(), Refused>
        ensures admitted { OnOk result (refusal_of self.old part ≡ None) }
        ensures added { OnOk result (self.new ≡ self.old ++ part ∷ []) }
        ensures refused { IfErr result (λ refused. (refused.part ≡ part) × (refusal_of self.old part ≡ Some refused.why)) }
        ensures kept { OnErr result (self.new ≡ self.old) }
    {
        if let Some(why) = self.refusal(&part) {
            return Err(Refused { part, why });
        }
        self.parts.push(part).unwrap();
        Ok(())
    }

    /// The parts, oldest first.
    pub fn parts(&self) -> &[Sealed]
        ensures value { result.now ≡ self.now }
        ensures chain { IsChain self.now }
        ensures some { 1 ≤ length self.now }
        ensures few { length self.now ≤ MAX_PARTS }
    {
        self.parts.as_slice()
    }

    /// What the parts together say of the certificate, by rows of SHA-256. Only parts that cover one of the sightings
    /// are asked. Each comparison of issuers is one probe, and each word that is read takes a step of `words`. No
    /// memory is taken.
    pub fn verdict<L: Ledger, M: Ledger>(
        &self,
        id: &Identity,
        sightings: &[Sighting],
        probes: &mut Steps<L>,
        words: &mut Steps<M>,
    ) -> Verdict
        ensures value { result ≡ verdict (map (λ s. s.part) self.now) id.now sightings.now }
        ensures more_probes { probes.old ≤ probes.new }
        ensures few_probes { AreProbes (covering sightings.now (map (λ s. s.part) self.now)) (probes.new - probes.old) }
        ensures more_words { words.old ≤ words.new }
        ensures few_words { words.new ≤ words.old + 51 * length (covering sightings.now (map (λ s. s.part) self.now)) }
    {
        counted_verdict(self.parts(), id, sightings, probes, words)
    }

    /// What the parts together say of the certificate. No memory is taken.
    pub fn says(&self, id: &Identity, sightings: &[Sighting]) -> Verdict
        ensures { result ≡ verdict (map (λ s. s.part) self.now) id.now sightings.now }
    {
        parts_say(self.parts(), id, sightings)
    }
}
