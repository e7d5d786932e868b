ghost use Rattle.std.specs.Prelude.{◌≡◌, ◌≤◌, ◌<◌, ◌^◌, IfSome};
ghost use Rattle.equation_core.specs.declared.shards.TheConstants.{MAX_SHIFT};
ghost use Rattle.equation_core.specs.Rows.{IsRow, row_of_key, sha256_bits};
ghost use Rattle.equation_core.specs.RowLaws.{sha256_row-is};
ghost use Rattle.equation_core.specs.Shards.{shard as shard_at};

use crate::hash::{Row, RowKey};
use crate::sha256_rows::{self, RowBits};
use crate::shards::{self, MAX_SHIFT, first_bits, first_bits_of};
use ident_core::Identity;
use lane_core::two_digests;
use std::marker::Model;

/// The shard among 256 of an identity and what stage 1 draws of seed 0, whose messages are digested side by side.
fn octet_and_bits(id: &Identity) -> (u8, RowBits)
    ensures octet { result.0 ≡ shard_at id.now MAX_SHIFT }
    ensures bits { result.1 ≡ sha256_bits 1 0 id.now }
{
    let len = id.serial.bytes().len();
    let [p, q] = two_digests(
        &shards::message_of(id)[..shards::FRONT + 33 + len],
        &sha256_rows::message_of(1, 0, id)[..sha256_rows::FRONT + 33 + len],
    );
    (first_bits(&p, MAX_SHIFT), RowBits::of_digest(&q))
}

/// The rows by SHA-256 and the shard of one identity, drawn when they are first asked for. The shard among 256 is kept
/// from then on, and of seed 0 what stages 1 and 2 draw, whatever their starts. Whoever asks for a shard nearly always
/// asks for the row of stage 1 next, so both are drawn at once.
#[derive(Drop)]
pub struct Draws<'a> {
    id: &'a Identity,
    octet: Option<u8>,
    first: Option<RowBits>,
    second: Option<RowBits>,
}

impl<'a> Model for Draws<'a> {
    ghost use Rattle.ident_core.specs.declared.identity.Identity.{Identity};
    ghost use Rattle.equation_core.specs.Draws.{AreDrawn};

    ghost Value = { Identity };

    ghost view = { λ d. d.id.now };

    ghost invariant = { λ d. AreDrawn d.id.now d.octet d.first d.second };
}

impl<'a> Draws<'a> {
    /// Nothing is drawn for the identity yet.
    pub fn new(id: &'a Identity) -> Draws<'a>
        ensures { result ≡ id.now }
    {
        Draws {
            id,
            octet: None,
            first: None,
            second: None,
        }
    }

    /// The identity.
    pub fn id(&self) -> &Identity
        ensures { result.now ≡ self.now }
    {
        self.id
    }

    #[inline(always)]
    fn kept(&self, stage: u8, seed: u8) -> Option<RowBits>
        ensures { IfSome result (λ bits. bits ≡ sha256_bits stage seed self.now) }
    {
        match (stage, seed) {
            (1, 0) => self.first,
            (2, 0) => self.second,
            _ => None,
        }
    }

    fn draw(&mut self, stage: u8, seed: u8) -> RowBits
        ensures bits { result ≡ sha256_bits stage seed self.old }
        ensures same { self.new ≡ self.old }
    {
        let bits = RowBits::drawn(stage, seed, self.id);
        match (stage, seed) {
            (1, 0) => self.first = Some(bits),
            (2, 0) => self.second = Some(bits),
            _ => {}
        }
        bits
    }

    #[inline(always)]
    fn bits(&mut self, stage: u8, seed: u8) -> RowBits
        ensures bits { result ≡ sha256_bits stage seed self.old }
        ensures same { self.new ≡ self.old }
    {
        match self.kept(stage, seed) {
            Some(bits) => bits,
            None => self.draw(stage, seed),
        }
    }

    /// The identity's row.
    #[inline(always)]
    pub fn row(&mut self, key: RowKey) -> Row
        requires { 1 ≤ key.starts }
        ensures value { result ≡ row_of_key key self.old }
        ensures formed { IsRow key.starts result }
        ensures same { self.new ≡ self.old }
    {
        self.bits(key.stage, key.seed).row(key.starts)
    }

    fn draw_octet(&mut self) -> u8
        ensures octet { result ≡ shard_at self.old MAX_SHIFT }
        ensures same { self.new ≡ self.old }
    {
        let (octet, bits) = octet_and_bits(self.id);
        self.octet = Some(octet);
        self.first = Some(bits);
        octet
    }

    #[inline(always)]
    fn octet(&mut self) -> u8
        ensures octet { result ≡ shard_at self.old MAX_SHIFT }
        ensures same { self.new ≡ self.old }
    {
        match self.octet {
            Some(octet) => octet,
            None => self.draw_octet(),
        }
    }

    /// The identity's shard among `2^shift`.
    #[inline(always)]
    pub fn shard(&mut self, shift: u8) -> u8
        requires { shift ≤ MAX_SHIFT }
        ensures value { result ≡ shard_at self.old shift }
        ensures below { result < 2 ^ shift }
        ensures same { self.new ≡ self.old }
    {
        first_bits_of(self.octet(), shift)
    }
}
