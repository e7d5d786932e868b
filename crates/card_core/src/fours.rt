//! What a part says of four certificates, whose digests are drawn side by side.

ghost use Rattle.std.specs.Prelude.{◌≡◌, ◌≤◌, [], ◌∷◌, IfSome};
ghost use Rattle.card_core.specs.Verdict.{verdict, said_by};

use crate::block::Body;
use crate::part::Part;
use crate::verdict::Verdict;
use equation_core::{Known, RowKey, draw_rows, draw_shards};
use ident_core::{Identity, Sighting};
use octets_core::Steps;
use std::sync::ledger::Ledger;

/// A certificate that parts are asked of, with what is known of its digests, and when it was seen.
#[derive(Drop)]
pub struct Inquiry<'a> {
    certificate: Known,
    sightings: &'a [Sighting],
}

impl<'a> Inquiry<'a> {
    /// Nothing is known of the certificate's digests yet.
    pub fn new(id: &Identity, sightings: &'a [Sighting]) -> Inquiry<'a>
        ensures certificate { result.certificate ≡ id.now }
        ensures sightings { result.sightings.now ≡ sightings.now }
    {
        Inquiry {
            certificate: Known::new(id),
            sightings,
        }
    }

    // Whether its shard will be asked for.
    fn wants_shard(&self, found: &Result<&Body, Verdict>) -> bool {
        match found {
            Ok(Body::Sharded(_)) => !self.certificate.has_shard(),
            _ => false,
        }
    }

    // The key of the row that will be asked for first, if one will.
    fn wanted_row(&self, found: &Result<&Body, Verdict>) -> Option<RowKey>
        ensures { IfSome result (λ key. 1 ≤ key.starts) }
    {
        match found {
            Ok(body) => body.first_key(&self.certificate),
            Err(_) => None,
        }
    }

    // What is said of it by what was found.
    fn said_by<M: Ledger>(&self, found: &Result<&Body, Verdict>, words: &mut Steps<M>) -> Verdict
        ensures { result ≡ said_by self.now.certificate found.now }
    {
        let body = match found {
            Ok(body) => *body,
            Err(verdict) => return *verdict,
        };
        let id = self.certificate.id();
        if body.tests_positive(&self.certificate, id, words) {
            Verdict::Revoked
        } else {
            Verdict::Good
        }
    }
}

// Whether at least two of four are so. Four digests side by side take about the time of two.
fn are_two(a: bool, b: bool, c: bool, d: bool) -> bool {
    u8::from(a) + u8::from(b) + u8::from(c) + u8::from(d) >= 2
}

// A key, if none is wanted.
fn or_any(key: Option<RowKey>) -> RowKey
    requires { IfSome key (λ key. 1 ≤ key.starts) }
    ensures { 1 ≤ result.starts }
{
    key.unwrap_or(RowKey {
        stage: 1,
        seed: 0,
        starts: 1,
    })
}

// Draws the shards side by side, if at least two of them will be asked for.
fn draw_wanted_shards(
    a: &mut Inquiry,
    b: &mut Inquiry,
    c: &mut Inquiry,
    d: &mut Inquiry,
    found: &[Result<&Body, Verdict>; 4],
)
    ensures a { a.new ≡ a.old }
    ensures b { b.new ≡ b.old }
    ensures c { c.new ≡ c.old }
    ensures d { d.new ≡ d.old }
{
    let [in_a, in_b, in_c, in_d] = found;
    let wanted = are_two(
        a.wants_shard(in_a),
        b.wants_shard(in_b),
        c.wants_shard(in_c),
        d.wants_shard(in_d),
    );
    if wanted {
        draw_shards(
            &mut a.certificate,
            &mut b.certificate,
            &mut c.certificate,
            &mut d.certificate,
        );
    }
}

// Draws a row of each side by side, if at least two of them will be asked for.
fn draw_wanted_rows(
    a: &mut Inquiry,
    b: &mut Inquiry,
    c: &mut Inquiry,
    d: &mut Inquiry,
    found: &[Result<&Body, Verdict>; 4],
)
    ensures a { a.new ≡ a.old }
    ensures b { b.new ≡ b.old }
    ensures c { c.new ≡ c.old }
    ensures d { d.new ≡ d.old }
{
    let [in_a, in_b, in_c, in_d] = found;
    let (p, q, r, s) = (
        a.wanted_row(in_a),
        b.wanted_row(in_b),
        c.wanted_row(in_c),
        d.wanted_row(in_d),
    );
    if are_two(p.is_some(), q.is_some(), r.is_some(), s.is_some()) {
        draw_rows(
            &mut a.certificate,
            &mut b.certificate,
            &mut c.certificate,
            &mut d.certificate,
            (or_any(p), or_any(q), or_any(r), or_any(s)),
        );
    }
}

impl Part {
    // The body of the block of the certificate's issuer, where the part covers one of the sightings; else what it says.
    fn found_for<L: Ledger>(&self, asked: &Inquiry, probes: &mut Steps<L>) -> Result<&Body, Verdict>
        ensures { verdict (self.now ∷ []) asked.now.certificate asked.now.sightings.now ≡ said_by asked.now.certificate result }
    {
        if !self.covers(asked.sightings) {
            return Err(Verdict::NotCovered);
        }
        match self.body_of(asked.certificate.id(), probes) {
            None => Err(Verdict::NotEnrolled),
            Some(body) => Ok(body),
        }
    }

    /// What the part says of each of four certificates, by rows of SHA-256. Where it asks for the shards or the rows of
    /// at least two of them, these are drawn side by side.
    pub fn four_verdicts<L: Ledger, M: Ledger>(
        &self,
        a: &mut Inquiry,
        b: &mut Inquiry,
        c: &mut Inquiry,
        d: &mut Inquiry,
        probes: &mut Steps<L>,
        words: &mut Steps<M>,
    ) -> [Verdict; 4]
        ensures said { result
            ≡ verdict (self.now ∷ []) a.old.certificate a.old.sightings.now ∷ verdict (self.now ∷ []) b.old.certificate b.old.sightings.now
            ∷ verdict (self.now ∷ []) c.old.certificate c.old.sightings.now
            ∷ verdict (self.now ∷ []) d.old.certificate d.old.sightings.now ∷ [] }
        ensures a { a.new ≡ a.old }
        ensures b { b.new ≡ b.old }
        ensures c { c.new ≡ c.old }
        ensures d { d.new ≡ d.old }
    {
        let found = [
            self.found_for(a, probes),
            self.found_for(b, probes),
            self.found_for(c, probes),
            self.found_for(d, probes),
        ];
        draw_wanted_shards(a, b, c, d, &found);
        draw_wanted_rows(a, b, c, d, &found);
        let [in_a, in_b, in_c, in_d] = &found;
        [
            a.said_by(in_a, words),
            b.said_by(in_b, words),
            c.said_by(in_c, words),
            d.said_by(in_d, words),
        ]
    }
}
