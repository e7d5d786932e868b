ghost use Rattle.std.specs.Prelude.{◌≡◌, ◌<◌, ◌≤◌, ◌^◌, ◌+◌, ◌-◌, ◌/◌, [], ◌∷◌, length, take, slice_index};
ghost use Rattle.equation_core.specs.declared.shards.TheConstants.{MAX_SHIFT, FRONT};
ghost use Rattle.equation_core.specs.Shards.{shard, shard_text};

use crate::message::{IDENTITY, put_identity};
use ident_core::Identity;
use lane_core::digests;
use sha2::{Digest, Sha256};

/// The most bits that tell a shard.
pub const MAX_SHIFT: u8 = 8;

/// The bytes of a shard's message before the identity.
pub(crate) const FRONT: usize = 7;

/// The message of a shard, and zeros behind it.
pub(crate) fn message_of(id: &Identity) -> [u8; FRONT + IDENTITY]
    ensures { take (FRONT + 33 + length id.now.serial) result ≡ shard_text id.now }
{
    let mut message = [0; FRONT + IDENTITY];
    message[..FRONT].copy_from_slice(b"CCSHARD");
    put_identity(&mut message, FRONT, id);
    message
}

/// The number that the first `shift` bits of an octet spell.
#[inline(always)]
pub(crate) fn first_bits_of(octet: u8, shift: u8) -> u8
    requires { shift ≤ MAX_SHIFT }
    ensures { result ≡ octet / 2 ^ (MAX_SHIFT - shift) }
{
    (u32::from(octet) >> (MAX_SHIFT - shift)) as u8
}

/// The number that the first `shift` bits of a digest spell.
#[inline(always)]
pub(crate) fn first_bits(digest: &[u8; 32], shift: u8) -> u8
    requires { shift ≤ MAX_SHIFT }
    ensures { result ≡ slice_index digest.now 0 / 2 ^ (MAX_SHIFT - shift) }
{
    first_bits_of(digest[0], shift)
}

/// The shard of an identity among `2^shift`: the number that the first `shift` bits of a digest (SHA-256, FIPS 180-4)
/// spell. Digested are the mark `CCSHARD`, the issuer, the serial's length and the serial.
#[tactic(auto, using(crate::proofs::Cutting::shard_below))]
pub fn shard_of(id: &Identity, shift: u8) -> u8
    requires { shift ≤ MAX_SHIFT }
    ensures value { result ≡ shard id.now shift }
    ensures below { result < 2 ^ shift }
{
    let message = message_of(id);
    let len = FRONT + 33 + id.serial.bytes().len();
    first_bits(&Sha256::digest(&message[..len]), shift)
}

/// The shards of four identities, whose messages are digested side by side.
pub fn four_shards(a: &Identity, b: &Identity, c: &Identity, d: &Identity, shift: u8) -> [u8; 4]
    requires { shift ≤ MAX_SHIFT }
    ensures { result ≡ shard a.now shift ∷ shard b.now shift ∷ shard c.now shift ∷ shard d.now shift ∷ [] }
{
    let [p, q, r, s] = digests(
        &message_of(a)[..FRONT + 33 + a.serial.bytes().len()],
        &message_of(b)[..FRONT + 33 + b.serial.bytes().len()],
        &message_of(c)[..FRONT + 33 + c.serial.bytes().len()],
        &message_of(d)[..FRONT + 33 + d.serial.bytes().len()],
    );
    [
        first_bits(&p, shift),
        first_bits(&q, shift),
        first_bits(&r, shift),
        first_bits(&s, shift),
    ]
}
