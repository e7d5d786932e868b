//! A part that stands in bytes, by what an index tells of it.

ghost use Rattle.std.specs.Prelude.{◌≡◌, ◌≤◌, ◌<◌, ◌+◌, ◌-◌, ◌*◌, ◌^◌, [], ◌∷◌, length, map};
ghost use Rattle.ident_core.specs.declared.layout.TheConstants.{RANGE_BYTES};
ghost use Rattle.card_core.specs.PartFields.{PartFields};
ghost use Rattle.card_core.specs.Verdict.{verdict, covering, AreProbes};
ghost use Rattle.view_core.specs.Parts.{IsPartAt};

use crate::block::block_says;
use crate::places::place_of;
use crate::ranges::{RangesAt, cover_some_at};
use crate::seen::Seen;
use card_core::Verdict;
use equation_core::Draws;
use octets_core::Steps;
use std::sync::ledger::Ledger;

/// Where a part's ranges stand, where each of its blocks begins, and the table of their buckets.
#[derive(Clone, Copy, Debug)]
pub(crate) struct PartAt<'a> {
    pub ranges: RangesAt,
    pub blocks: &'a [u32],
    pub buckets: &'a [u32],
}

/// What the part says of the certificate. The places are those of shards. Each comparison of issuers is one probe, and
/// each word of a plane that is read takes a step of `words`.
pub(crate) fn part_says<S: Seen, L: Ledger, M: Ledger>(
    bytes: &[u8],
    shards: &[u32],
    part: &PartAt,
    draws: &mut Draws,
    sightings: &[S],
    probes: &mut Steps<L>,
    words: &mut Steps<M>,
) -> Verdict
    requires place { part.now.ranges.at + RANGE_BYTES * part.now.ranges.count < 2 ^ 63 }
    ensures value { (p : PartFields) → IsPartAt bytes.now shards.now part.now p
        → result ≡ verdict (p ∷ []) draws.old (map S.sighting sightings.now) }
    ensures same { draws.new ≡ draws.old }
    ensures more_probes { probes.old ≤ probes.new }
    ensures few_probes { (p : PartFields) → IsPartAt bytes.now shards.now part.now p
        → AreProbes (covering (map S.sighting sightings.now) (p ∷ [])) (probes.new - probes.old) }
    ensures more_words { words.old ≤ words.new }
    ensures few_words { (p : PartFields) → IsPartAt bytes.now shards.now part.now p
        → words.new ≤ words.old + 51 * length (covering (map S.sighting sightings.now) (p ∷ [])) }
{
    if !cover_some_at(bytes, part.ranges, sightings) {
        return Verdict::NotCovered;
    }
    let Some(place) = place_of(bytes, part.blocks, part.buckets, &draws.id().issuer, probes) else {
        return Verdict::NotEnrolled;
    };
    if block_says(bytes, part.blocks[place] as usize, shards, draws, words) {
        Verdict::Revoked
    } else {
        Verdict::Good
    }
}
