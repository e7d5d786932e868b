ghost use Rattle.std.specs.Prelude.{◌≡◌, ◌≤◌, ◌+◌, ◌-◌, ◌*◌, ◌^◌, length};
ghost use Rattle.std.specs.List.{list_any};
ghost use Rattle.std.specs.Option.{option_map};
ghost use Rattle.equation_core.specs.Rows.{Rows};
ghost use Rattle.ident_core.specs.Coverage.{AreRanges, covers};
ghost use Rattle.card_core.specs.PartFields.{IsPart, AreBlocks};
ghost use Rattle.card_core.specs.Consulting.{IsPlaceOf, consulted, covers_some};
ghost use Rattle.card_core.specs.Filter.{is_positive};

use crate::block::{Block, Body};
use equation_core::EquationHash;
use ident_core::{Head, Identity, Range, Sighting, covers_sorted};
use octets_core::{Key32, Steps};
use std::cmp::Ordering;
use std::marker::Model;
use std::sync::ledger::Ledger;

/// The most blocks of a part.
pub const MAX_BLOCKS: u32 = 65_535;

/// A part: its head, and a block for each issuer that was enrolled in its job. Each part keeps at most 65,535 blocks,
/// with strictly ascending issuers.
#[derive(Drop)]
pub struct Part {
    head: Head,
    blocks: Vec<Block>,
}

impl Model for Part {
    ghost use Rattle.card_core.specs.PartFields.{PartFields, IsPart};

    ghost Value = { PartFields };

    ghost view = { λ p. record { head = p.head; blocks = p.blocks.items } };

    ghost invariant = { λ p. IsPart (record { head = p.head; blocks = p.blocks.items }) };
}

impl Part {
    /// The part of this head and these blocks.
    pub fn new(head: Head, blocks: Vec<Block>) -> Part
        requires { IsPart (record { head = head; blocks = blocks.items }) }
        ensures { result ≡ record { head = head; blocks = blocks.items } }
    {
        Part { head, blocks }
    }

    /// The part's head.
    pub fn head(&self) -> &Head
        ensures { result.now ≡ self.now.head }
    {
        &self.head
    }

    /// The part's blocks.
    pub fn blocks(&self) -> &[Block]
        ensures value { result.now ≡ self.now.blocks }
        ensures facts { IsPart self.now }
    {
        self.blocks.as_slice()
    }

    /// Whether the part covers one of the sightings: a binary search among its ranges for each.
    pub fn covers(&self, sightings: &[Sighting]) -> bool
        ensures { result ≡ covers_some sightings.now self.now }
    {
        covers_one(self.head.ranges(), sightings)
    }

    // The body of the block of the certificate's issuer, if there is one. What the block says is what the body says.
    pub(crate) fn body_of<L: Ledger>(&self, id: &Identity, probes: &mut Steps<L>) -> Option<&Body>
        ensures value { (rows : Rows)
            → consulted rows id.now self.now.blocks ≡ option_map (λ body. is_positive rows id.now body.now) result }
        ensures more { probes.old ≤ probes.new }
        ensures few { 2 ^ (probes.new - probes.old) ≤ 2 * length self.now.blocks + 1 }
    {
        let place = place_of(&self.blocks, &id.issuer, probes)?;
        Some(&self.blocks[place].body)
    }

    /// What the block of the certificate's issuer says, if there is one. Each comparison of issuers is one probe, and
    /// each word that is read takes a step of `words`.
    pub fn consult<H: EquationHash, L: Ledger, M: Ledger>(
        &self,
        hash: &H,
        id: &Identity,
        probes: &mut Steps<L>,
        words: &mut Steps<M>,
    ) -> Option<bool>
        ensures value { result ≡ consulted (H.row_of hash.now) id.now self.now.blocks }
        ensures more_probes { probes.old ≤ probes.new }
        ensures few_probes { 2 ^ (probes.new - probes.old) ≤ 2 * length self.now.blocks + 1 }
        ensures more_words { words.old ≤ words.new }
        ensures few_words { words.new ≤ words.old + 51 }
    {
        match self.body_of(id, probes) {
            None => None,
            Some(body) => Some(body.tests_positive(hash, id, words)),
        }
    }
}

fn covers_one(ranges: &[Range], sightings: &[Sighting]) -> bool
    requires { AreRanges ranges.now }
    ensures { result ≡ list_any (covers ranges.now) sightings.now }
{
    sightings.iter().any(|s| covers_sorted(ranges, s))
}

// Where the block of an issuer stands, by halves.
fn place_of<L: Ledger>(blocks: &[Block], issuer: &Key32, probes: &mut Steps<L>) -> Option<usize>
    requires { AreBlocks blocks.now }
    ensures place { IsPlaceOf issuer.now blocks.now result }
    ensures later { probes.old ≤ probes.new }
    ensures few { 2 ^ (probes.new - probes.old) ≤ 2 * length blocks.now + 1 }
{
    let mut low = 0;
    let mut high = blocks.len();
    while low < high {
        let middle = low + (high - low) / 2;
        probes.tick();
        match blocks[middle].issuer.cmp(issuer) {
            Ordering::Equal => return Some(middle),
            Ordering::Less => low = middle + 1,
            Ordering::Greater => high = middle,
        }
    }
    None
}
