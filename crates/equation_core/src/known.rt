ghost use Rattle.std.specs.Prelude.{◌≡◌, ◌≤◌, IfSome};
ghost use Rattle.equation_core.specs.declared.shards.TheConstants.{MAX_SHIFT};
ghost use Rattle.equation_core.specs.Rows.{row_of_key, sha256_row};
ghost use Rattle.equation_core.specs.RowLaws.{sha256_row-is};
ghost use Rattle.equation_core.specs.Shards.{shard as shard_at};

use crate::hash::{EquationHash, Row, RowKey};
use crate::sha256_rows::{AskedRow, Sha256Rows, rows_of_four};
use crate::shards::{MAX_SHIFT, first_bits_of, four_shards, shard_of};
use ident_core::{Identity, is_same};
use std::marker::Model;

/// A row that was drawn.
#[derive(Clone, Copy)]
struct Drawn {
    key: RowKey,
    row: Row,
}

/// The rows by SHA-256, and what is known of those of one identity: its shard among 256, and a row. For four identities
/// these are drawn side by side, before they are asked for.
#[derive(Drop)]
pub struct Known {
    id: Identity,
    octet: Option<u8>,
    drawn: Option<Drawn>,
}

impl Model for Known {
    ghost use Rattle.ident_core.specs.declared.identity.Identity.{Identity};
    ghost use Rattle.equation_core.specs.Known.{IsKnown};

    ghost Value = { Identity };

    ghost view = { λ k. k.id };

    ghost invariant = { λ k. IsKnown k.id k.octet k.drawn };
}

impl Known {
    /// Nothing is known of the identity yet.
    pub fn new(id: &Identity) -> Known
        ensures { result ≡ id.now }
    {
        Known {
            id: *id,
            octet: None,
            drawn: None,
        }
    }

    /// The identity.
    pub fn id(&self) -> &Identity
        ensures { result.now ≡ self.now }
    {
        &self.id
    }

    /// Whether its shard is known.
    pub fn has_shard(&self) -> bool {
        self.octet.is_some()
    }

    fn asked(&self, key: RowKey) -> AskedRow<'_>
        ensures key { result.key ≡ key }
        ensures id { result.id.now ≡ self.now }
    {
        AskedRow { key, id: &self.id }
    }

    fn keep_shard(&mut self, octet: u8)
        requires { octet ≡ shard_at self.old MAX_SHIFT }
        ensures { self.new ≡ self.old }
    {
        self.octet = Some(octet);
    }

    fn keep_row(&mut self, key: RowKey, row: Row)
        requires { row ≡ row_of_key key self.old }
        ensures { self.new ≡ self.old }
    {
        self.drawn = Some(Drawn { key, row });
    }

    fn shard_known(&self, id: &Identity) -> Option<u8>
        ensures { IfSome result (λ octet. octet ≡ shard_at id.now MAX_SHIFT) }
    {
        if is_same(id, &self.id) {
            self.octet
        } else {
            None
        }
    }

    fn row_known(&self, stage: u8, seed: u8, id: &Identity, starts: u32) -> Option<Row>
        ensures { IfSome result (λ row. row ≡ sha256_row stage seed id.now starts) }
    {
        let drawn = self.drawn?;
        let key = drawn.key;
        let is_meant = key.stage == stage && key.seed == seed && key.starts == starts;
        if is_meant && is_same(id, &self.id) {
            Some(drawn.row)
        } else {
            None
        }
    }
}

impl EquationHash for Known {
    ghost row_of = { λ _ stage seed id starts. sha256_row stage seed id starts };

    ghost formed = { λ _ stage seed id starts _ _ some _. sha256_row-is stage seed id starts some };

    fn row(&self, stage: u8, seed: u8, id: &Identity, starts: u32) -> Row {
        match self.row_known(stage, seed, id, starts) {
            Some(row) => row,
            None => Sha256Rows.row(stage, seed, id, starts),
        }
    }

    fn shard(&self, id: &Identity, shift: u8) -> u8 {
        match self.shard_known(id) {
            Some(octet) => first_bits_of(octet, shift),
            None => shard_of(id, shift),
        }
    }
}

/// Draws the shards of four identities, and keeps each with its identity.
pub fn draw_shards(a: &mut Known, b: &mut Known, c: &mut Known, d: &mut Known)
    ensures a { a.new ≡ a.old }
    ensures b { b.new ≡ b.old }
    ensures c { c.new ≡ c.old }
    ensures d { d.new ≡ d.old }
{
    let [p, q, r, s] = four_shards(a.id(), b.id(), c.id(), d.id(), MAX_SHIFT);
    a.keep_shard(p);
    b.keep_shard(q);
    c.keep_shard(r);
    d.keep_shard(s);
}

/// Draws a row of each of four identities, and keeps it with its identity. The keys are in the identities' order.
pub fn draw_rows(
    a: &mut Known,
    b: &mut Known,
    c: &mut Known,
    d: &mut Known,
    keys: (RowKey, RowKey, RowKey, RowKey),
)
    requires a { 1 ≤ keys.0.starts }
    requires b { 1 ≤ keys.1.starts }
    requires c { 1 ≤ keys.2.starts }
    requires d { 1 ≤ keys.3.starts }
    ensures a { a.new ≡ a.old }
    ensures b { b.new ≡ b.old }
    ensures c { c.new ≡ c.old }
    ensures d { d.new ≡ d.old }
{
    let (key_a, key_b, key_c, key_d) = keys;
    let [p, q, r, s] = rows_of_four(
        &a.asked(key_a),
        &b.asked(key_b),
        &c.asked(key_c),
        &d.asked(key_d),
    );
    a.keep_row(key_a, p);
    b.keep_row(key_b, q);
    c.keep_row(key_c, r);
    d.keep_row(key_d, s);
}
