ghost use Rattle.std.specs.Prelude.{◌≡◌, ◌≤◌, ◌+◌, [], ◌∷◌, length, take};
ghost use Rattle.equation_core.specs.declared.sha256_rows.TheConstants.{FRONT};
ghost use Rattle.equation_core.specs.Rows.{IsRow, row_text, bits_of_digest, row_of_bits, row_of_digest, row_of_key};
ghost use Rattle.equation_core.specs.Rows.{sha256_bits, sha256_row};
ghost use Rattle.equation_core.specs.RowLaws.{sha256_row-is};

use crate::hash::{EquationHash, Row, RowKey};
use crate::message::{IDENTITY, put_identity};
use ident_core::Identity;
use lane_core::digests;
use sha2::{Digest, Sha256};

/// The bytes of a row's message before the identity.
pub(crate) const FRONT: usize = 8;

/// The message of a row, and zeros behind it.
pub(crate) fn message_of(stage: u8, seed: u8, id: &Identity) -> [u8; FRONT + IDENTITY]
    ensures { take (FRONT + 33 + length id.now.serial) result ≡ row_text stage seed id.now }
{
    let mut message = [0; FRONT + IDENTITY];
    message[..6].copy_from_slice(b"CCROW1");
    message[6] = stage;
    message[7] = seed;
    put_identity(&mut message, FRONT, id);
    message
}

/// What a digest spells of a row, whatever the starts.
#[derive(Clone, Copy)]
pub(crate) struct RowBits {
    pub coeff: u128,
    /// What the start is, modulo the starts.
    pub start: u64,
    pub tag: u16,
}

impl RowBits {
    /// Bytes 0 to 15 of a digest are the coefficient, whose bit 0 is set, bytes 16 to 23 give the start, and bytes 24
    /// and 25 are the tag.
    #[inline(always)]
    pub(crate) fn of_digest(d: &[u8; 32]) -> RowBits
        ensures { result ≡ bits_of_digest d.now }
    {
        let coeff = u128::from_be_bytes([
            d[0], d[1], d[2], d[3], d[4], d[5], d[6], d[7], d[8], d[9], d[10], d[11], d[12], d[13],
            d[14], d[15],
        ]);
        RowBits {
            coeff: coeff | 1,
            start: u64::from_be_bytes([d[16], d[17], d[18], d[19], d[20], d[21], d[22], d[23]]),
            tag: u16::from_be_bytes([d[24], d[25]]),
        }
    }

    /// What the row's digest spells, of an identity for a stage and a seed.
    pub(crate) fn drawn(stage: u8, seed: u8, id: &Identity) -> RowBits
        ensures { result ≡ sha256_bits stage seed id.now }
    {
        let message = message_of(stage, seed, id);
        let len = FRONT + 33 + id.serial.bytes().len();
        RowBits::of_digest(&Sha256::digest(&message[..len]))
    }

    /// The row among so many starts.
    #[inline(always)]
    pub(crate) fn row(&self, starts: u32) -> Row
        requires { 1 ≤ starts }
        ensures { result ≡ row_of_bits self.now starts }
    {
        Row {
            start: (self.start % starts as u64) as u32,
            coeff: self.coeff,
            tag: self.tag,
        }
    }
}

/// An identity, and which of its rows is asked for.
#[derive(Clone, Copy)]
pub(crate) struct AskedRow<'a> {
    pub key: RowKey,
    pub id: &'a Identity,
}

/// The rows that are asked for, by SHA-256. Their messages are digested side by side.
pub(crate) fn rows_of_four(a: &AskedRow, b: &AskedRow, c: &AskedRow, d: &AskedRow) -> [Row; 4]
    requires a { 1 ≤ a.now.key.starts }
    requires b { 1 ≤ b.now.key.starts }
    requires c { 1 ≤ c.now.key.starts }
    requires d { 1 ≤ d.now.key.starts }
    ensures { result ≡ row_of_key a.now.key a.now.id.now ∷ row_of_key b.now.key b.now.id.now
        ∷ row_of_key c.now.key c.now.id.now ∷ row_of_key d.now.key d.now.id.now ∷ [] }
{
    let [p, q, r, s] = digests(
        &message_of(a.key.stage, a.key.seed, a.id)[..FRONT + 33 + a.id.serial.bytes().len()],
        &message_of(b.key.stage, b.key.seed, b.id)[..FRONT + 33 + b.id.serial.bytes().len()],
        &message_of(c.key.stage, c.key.seed, c.id)[..FRONT + 33 + c.id.serial.bytes().len()],
        &message_of(d.key.stage, d.key.seed, d.id)[..FRONT + 33 + d.id.serial.bytes().len()],
    );
    [
        RowBits::of_digest(&p).row(a.key.starts),
        RowBits::of_digest(&q).row(b.key.starts),
        RowBits::of_digest(&r).row(c.key.starts),
        RowBits::of_digest(&s).row(d.key.starts),
    ]
}

/// Rows by SHA-256 (FIPS 180-4), cut from the digest of this project's own row message: the mark `CCROW1`, the stage,
/// the seed, the issuer, the serial's length and the serial.
#[derive(Clone, Copy, Debug, PartialEq, Eq)]
pub struct Sha256Rows;

impl EquationHash for Sha256Rows {
    ghost row_of = { λ _ stage seed id starts. sha256_row stage seed id starts };

    ghost formed = { λ _ stage seed id starts _ _ some _. sha256_row-is stage seed id starts some };

    fn row(&self, stage: u8, seed: u8, id: &Identity, starts: u32) -> Row {
        RowBits::drawn(stage, seed, id).row(starts)
    }

    fn four_rows(
        &self,
        stage: u8,
        seed: u8,
        a: &Identity,
        b: &Identity,
        c: &Identity,
        d: &Identity,
        starts: u32,
    ) -> [Row; 4] {
        let key = RowKey {
            stage,
            seed,
            starts,
        };
        rows_of_four(
            &AskedRow { key, id: a },
            &AskedRow { key, id: b },
            &AskedRow { key, id: c },
            &AskedRow { key, id: d },
        )
    }
}
