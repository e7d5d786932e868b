//! Verdicts of a store that is lent with its index.

ghost use Rattle.std.specs.Prelude.{◌≡◌, ℕ, List, ◌∷◌, ◌++◌, ◌<◌, ◌≤◌, ◌+◌, ◌-◌, ◌*◌, ◌^◌, length, map, IfSome, IsNone};
ghost use Rattle.part_text.specs.SealedFields.{SealedFields};
ghost use Rattle.card_core.specs.Verdict.{verdict, covering, AreProbes};
ghost use Rattle.view_core.specs.Covering.{covered_until};
ghost use Rattle.view_core.specs.Opening.{IsOpened};

use crate::part::{PartAt, part_says};
use crate::ranges::{RangesAt, range_of};
use crate::seen::Seen;
use card_core::Verdict;
use equation_core::Draws;
use ident_core::Identity;
use octets_core::{Key32, Steps};
use std::marker::Brand;
use std::sync::ledger::{Blank, Ledger};

/// The bytes of a store, and its index. Any bytes and any numbers are safe to ask.
#[derive(Clone, Copy, Debug)]
pub struct View<'a> {
    pub store: &'a [u8],
    pub index: &'a [u32],
}

/// The words of an index that tell of parts, and those that tell of shards. None, where they aren't all there.
fn split_index(index: &[u32]) -> (&[u32], &[u32])
    ensures { (parts shards behind : List ℕ) → index.now ≡ length parts ∷ length shards ∷ parts ++ shards ++ behind
        → (result.0.now ≡ parts) × (result.1.now ≡ shards) }
{
    let none: (&[u32], &[u32]) = (&[], &[]);
    if index.len() < 2 {
        return none;
    }
    let (parts, shards) = (index[0] as usize, index[1] as usize);
    if index.len() - 2 < parts + shards {
        return none;
    }
    (&index[2..2 + parts], &index[2 + parts..2 + parts + shards])
}

/// What the words tell of a part, and the words behind it.
fn next_part(words: &[u32]) -> Option<(PartAt<'_>, &[u32])>
    ensures some { IfSome result (λ x. words.now
        ≡ x.0.ranges.count ∷ x.0.ranges.at ∷ length x.0.blocks.now ∷ x.0.blocks.now ++ x.0.buckets.now ++ x.1.now) }
    ensures alike { IfSome result (λ x. length x.0.buckets.now ≡ length x.0.blocks.now) }
    ensures fewer { IfSome result (λ x. length x.1.now < length words.now) }
    ensures few { IfSome result (λ x. (x.0.ranges.at < 2 ^ 32) × (x.0.ranges.count < 2 ^ 32)) }
    ensures none { IsNone result → (count at : ℕ) (blocks buckets behind : List ℕ) → length buckets ≡ length blocks
        → words.now ≡ count ∷ at ∷ length blocks ∷ blocks ++ buckets ++ behind → ⊥ }
{
    if words.len() < 3 {
        return None;
    }
    let count = words[2] as usize;
    if words.len() - 3 < 2 * count {
        return None;
    }
    let ranges = RangesAt {
        at: words[1] as usize,
        count: words[0] as usize,
    };
    let (blocks, rest) = words[3..].split_at(count);
    let (buckets, rest) = rest.split_at(count);
    Some((
        PartAt {
            ranges,
            blocks,
            buckets,
        },
        rest,
    ))
}

/// What a store with this index says of the certificate.
fn store_says<S: Seen, L: Ledger, M: Ledger>(
    store: &[u8],
    index: &[u32],
    id: &Identity,
    sightings: &[S],
    probes: &mut Steps<L>,
    words: &mut Steps<M>,
) -> Verdict
    ensures value { (parts : List SealedFields) → IsOpened store.now index.now parts
        → result ≡ verdict (map (λ s. s.part) parts) id.now (map S.sighting sightings.now) }
    ensures more_probes { probes.old ≤ probes.new }
    ensures few_probes { (parts : List SealedFields) → IsOpened store.now index.now parts
        → AreProbes (covering (map S.sighting sightings.now) (map (λ s. s.part) parts)) (probes.new - probes.old) }
    ensures more_words { words.old ≤ words.new }
    ensures few_words { (parts : List SealedFields) → IsOpened store.now index.now parts
        → words.new ≤ words.old + 51 * length (covering (map S.sighting sightings.now) (map (λ s. s.part) parts)) }
{
    let (mut rest, shards) = split_index(index);
    let mut draws = Draws::new(id);
    let mut verdict = Verdict::NotCovered;
    while let Some((part, others)) = next_part(rest) {
        let said = part_says(store, shards, &part, &mut draws, sightings, probes, words);
        verdict = verdict.joined_with(said);
        rest = others;
    }
    verdict
}

/// The same, with counters that nothing reads.
fn uncounted<S: Seen, L: Ledger, M: Ledger>(
    store: &[u8],
    index: &[u32],
    id: &Identity,
    sightings: &[S],
    probes: Blank,
    words: Blank,
) -> Verdict
    requires probes_name { probes.name ≡ L.name }
    requires probes_parts { probes.parts ≡ L.parts }
    requires some_probes { 0 < L.parts }
    requires words_name { words.name ≡ M.name }
    requires words_parts { words.parts ≡ M.parts }
    requires some_words { 0 < M.parts }
    ensures { (parts : List SealedFields) → IsOpened store.now index.now parts
        → result ≡ verdict (map (λ s. s.part) parts) id.now (map S.sighting sightings.now) }
{
    let mut probes: Steps<L> = Steps::new(probes);
    let mut words: Steps<M> = Steps::new(words);
    store_says(store, index, id, sightings, &mut probes, &mut words)
}

fn says_uncounted<S: Seen>(store: &[u8], index: &[u32], id: &Identity, sightings: &[S]) -> Verdict
    ensures { (parts : List SealedFields) → IsOpened store.now index.now parts
        → result ≡ verdict (map (λ s. s.part) parts) id.now (map S.sighting sightings.now) }
{
    uncounted::<S, Brand, Brand>(store, index, id, sightings, Blank::new(1), Blank::new(1))
}

/// The last moment that the newest part of a store with this index covers of a log. None, where the index tells of no
/// part.
fn last_covered(store: &[u8], index: &[u32], log: &Key32) -> Option<u64>
    ensures { (parts : List SealedFields) → IsOpened store.now index.now parts → result ≡ covered_until parts log.now }
{
    let (mut rest, _) = split_index(index);
    let mut newest = RangesAt { at: 0, count: 0 };
    while let Some((part, others)) = next_part(rest) {
        newest = part.ranges;
        rest = others;
    }
    range_of(store, newest, log).map(|range| range.to)
}

impl<'a> View<'a> {
    /// The view of a store by its index.
    pub fn of(store: &'a [u8], index: &'a [u32]) -> View<'a>
        ensures store { result.store.now ≡ store.now }
        ensures index { result.index.now ≡ index.now }
    {
        View { store, index }
    }

    /// What the store says of the certificate. Each comparison of issuers is one probe, and each word of a plane that
    /// is read takes a step of `words`. Of bytes that are no store, or of numbers that aren't its index, some verdict
    /// is given.
    pub fn verdict<S: Seen, L: Ledger, M: Ledger>(
        &self,
        id: &Identity,
        sightings: &[S],
        probes: &mut Steps<L>,
        words: &mut Steps<M>,
    ) -> Verdict
        ensures value { (parts : List SealedFields) → IsOpened self.now.store.now self.now.index.now parts
            → result ≡ verdict (map (λ s. s.part) parts) id.now (map S.sighting sightings.now) }
        ensures more_probes { probes.old ≤ probes.new }
        ensures few_probes { (parts : List SealedFields) → IsOpened self.now.store.now self.now.index.now parts
            → AreProbes (covering (map S.sighting sightings.now) (map (λ s. s.part) parts)) (probes.new - probes.old) }
        ensures more_words { words.old ≤ words.new }
        ensures few_words { (parts : List SealedFields) → IsOpened self.now.store.now self.now.index.now parts
            → words.new ≤ words.old + 51 * length (covering (map S.sighting sightings.now) (map (λ s. s.part) parts)) }
    {
        store_says(self.store, self.index, id, sightings, probes, words)
    }

    /// What the store says of the certificate.
    pub fn says<S: Seen>(&self, id: &Identity, sightings: &[S]) -> Verdict
        ensures { (parts : List SealedFields) → IsOpened self.now.store.now self.now.index.now parts
            → result ≡ verdict (map (λ s. s.part) parts) id.now (map S.sighting sightings.now) }
    {
        says_uncounted(self.store, self.index, id, sightings)
    }

    /// The last moment, in milliseconds since 1970, that the newest part of the store covers of a log. None, if it has
    /// no range of the log. Of bytes that are no store, or of numbers that aren't its index, some answer is given.
    pub fn covered_until(&self, log: &Key32) -> Option<u64>
        ensures { (parts : List SealedFields) → IsOpened self.now.store.now self.now.index.now parts
            → result ≡ covered_until parts log.now }
    {
        last_covered(self.store, self.index, log)
    }
}
