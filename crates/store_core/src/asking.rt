//! What parts say together of a certificate, whether they are a store or not.

ghost use Rattle.std.specs.Prelude.{◌≡◌, ◌≤◌, ◌<◌, ◌+◌, ◌-◌, ◌*◌, [], ◌∷◌, map, length};
ghost use Rattle.card_core.specs.Verdict.{verdict, covering, AreProbes};
ghost use Rattle.store_core.specs.Asking.{said_of};

use card_core::{Inquiry, Verdict};
use ident_core::{Identity, Sighting};
use octets_core::Steps;
use part_codec::Sealed;
use std::marker::Brand;
use std::sync::ledger::{Blank, Ledger};

/// What the parts together say. Each comparison of issuers is one probe, and each word that is read takes a step of
/// `words`.
pub(crate) fn counted_verdict<L: Ledger, M: Ledger>(
    parts: &[Sealed],
    id: &Identity,
    sightings: &[Sighting],
    probes: &mut Steps<L>,
    words: &mut Steps<M>,
) -> Verdict
    ensures value { result ≡ verdict (map (λ s. s.part) parts.now) id.now sightings.now }
    ensures more_probes { probes.old ≤ probes.new }
    ensures few_probes { AreProbes (covering sightings.now (map (λ s. s.part) parts.now)) (probes.new - probes.old) }
    ensures more_words { words.old ≤ words.new }
    ensures few_words { words.new ≤ words.old + 51 * length (covering sightings.now (map (λ s. s.part) parts.now)) }
{
    let mut verdict = Verdict::NotCovered;
    for sealed in parts {
        let said = sealed.part().verdict(id, sightings, probes, words);
        verdict = verdict.joined_with(said);
    }
    verdict
}

/// What the parts together say, with counters that nothing reads.
fn said_by<L: Ledger, M: Ledger>(
    parts: &[Sealed],
    id: &Identity,
    sightings: &[Sighting],
    probes: Blank,
    words: Blank,
) -> Verdict
    requires probes_name { probes.name ≡ L.name }
    requires probes_parts { probes.parts ≡ L.parts }
    requires some_probes { 0 < L.parts }
    requires words_name { words.name ≡ M.name }
    requires words_parts { words.parts ≡ M.parts }
    requires some_words { 0 < M.parts }
    ensures { result ≡ verdict (map (λ s. s.part) parts.now) id.now sightings.now }
{
    let mut probes: Steps<L> = Steps::new(probes);
    let mut words: Steps<M> = Steps::new(words);
    counted_verdict(parts, id, sightings, &mut probes, &mut words)
}

/// What the parts together say of the certificate, whatever order they are in. No memory is taken.
pub fn parts_say(parts: &[Sealed], id: &Identity, sightings: &[Sighting]) -> Verdict
    ensures { result ≡ verdict (map (λ s. s.part) parts.now) id.now sightings.now }
{
    said_by::<Brand, Brand>(parts, id, sightings, Blank::new(1), Blank::new(1))
}

/// What the parts together say of each of four certificates, with counters that nothing reads.
fn four_said_by<L: Ledger, M: Ledger>(
    parts: &[Sealed],
    a: &mut Inquiry,
    b: &mut Inquiry,
    c: &mut Inquiry,
    d: &mut Inquiry,
    probes: Blank,
    words: Blank,
) -> [Verdict; 4]
    requires probes_name { probes.name ≡ L.name }
    requires probes_parts { probes.parts ≡ L.parts }
    requires some_probes { 0 < L.parts }
    requires words_name { words.name ≡ M.name }
    requires words_parts { words.parts ≡ M.parts }
    requires some_words { 0 < M.parts }
    ensures { result
        ≡ said_of parts.now a.old ∷ said_of parts.now b.old ∷ said_of parts.now c.old ∷ said_of parts.now d.old ∷ [] }
{
    let mut probes: Steps<L> = Steps::new(probes);
    let mut words: Steps<M> = Steps::new(words);
    let mut of_a = Verdict::NotCovered;
    let mut of_b = Verdict::NotCovered;
    let mut of_c = Verdict::NotCovered;
    let mut of_d = Verdict::NotCovered;
    for sealed in parts {
        let part = sealed.part();
        let [p, q, r, s] = part.four_verdicts(a, b, c, d, &mut probes, &mut words);
        of_a = of_a.joined_with(p);
        of_b = of_b.joined_with(q);
        of_c = of_c.joined_with(r);
        of_d = of_d.joined_with(s);
    }
    [of_a, of_b, of_c, of_d]
}

/// What the parts together say of each of four certificates, as `parts_say` does, in less time.
pub fn parts_say_of_four(
    parts: &[Sealed],
    mut a: Inquiry,
    mut b: Inquiry,
    mut c: Inquiry,
    mut d: Inquiry,
) -> [Verdict; 4]
    ensures { result
        ≡ said_of parts.now a.entry ∷ said_of parts.now b.entry ∷ said_of parts.now c.entry ∷ said_of parts.now d.entry ∷ [] }
{
    let (probes, words) = (Blank::new(1), Blank::new(1));
    four_said_by::<Brand, Brand>(parts, &mut a, &mut b, &mut c, &mut d, probes, words)
}
