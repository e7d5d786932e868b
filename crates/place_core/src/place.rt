ghost use Rattle.std.specs.Prelude.{◌≡◌, ◌<◌, ◌≤◌, ◌%◌, take};
ghost use Rattle.std.specs.Int.{from_be_bytes, w32};
ghost use Rattle.place_core.specs.Places.{place, issuer_place, place_in};

use ident_core::Identity;
use octets_core::Key32;
use sha2::{Digest, Sha256};
use std::marker::Model;

/// The most places into which a history is cut.
pub const MAX_PLACES: u32 = 65_536;

/// By what a history is cut: by issuers, whose identities stay together, or by each identity.
#[derive(Clone, Copy, Debug, PartialEq, Eq)]
pub enum By {
    /// By the issuer.
    Issuer,
    /// By the identity.
    Identity,
}

/// How many places there are: 1 to `MAX_PLACES`. Contracts see the number.
#[derive(Clone, Copy, Debug, PartialEq, Eq)]
pub struct PlaceCount {
    count: u32,
}

impl Model for PlaceCount {
    ghost use Rattle.std.specs.Prelude.{ℕ, ◌≤◌};
    ghost use Rattle.place_core.specs.declared.place.TheConstants.{MAX_PLACES};

    ghost Value = { ℕ };

    ghost view = { λ c. c.count };

    ghost invariant = { λ c. (1 ≤ c.count) × (c.count ≤ MAX_PLACES) };

    ghost inverse = { λ n. record { count = n } };
}

impl PlaceCount {
    ghost use Rattle.std.specs.Prelude.{◌≡◌, ◌≤◌};
    ghost use Rattle.place_core.specs.declared.place.TheConstants.{MAX_PLACES};
    ghost use Rattle.place_core.specs.Places.{place_count};

    /// So many places, if there may be so many.
    pub fn new(count: u32) -> Option<PlaceCount>
        ensures { result ≡ place_count count }
    {
        if count == 0 || count > MAX_PLACES {
            return None;
        }
        Some(PlaceCount { count })
    }

    /// How many places.
    pub fn get(&self) -> u32
        ensures value { result ≡ self.now }
        ensures bounds { (1 ≤ result) × (result ≤ MAX_PLACES) }
    {
        self.count
    }
}

/// The number that the first four bytes of a digest spell, greatest byte first, modulo a count of places.
fn reduced(digest: [u8; 32], count: PlaceCount) -> u32
    ensures value { result ≡ from_be_bytes w32 (take 4 digest) % count }
    ensures below { result < count }
{
    let [a, b, c, d, ..] = digest;
    u32::from_be_bytes([a, b, c, d]) % count.count
}

/// The place of an identity among so many, from 0 on: the number that the first four bytes of a digest (SHA-256, FIPS
/// 180-4) spell, greatest byte first, modulo their count. Digested are the mark `CCPLACE`, the issuer, the serial's
/// length in one byte, and the serial.
pub fn place_of(id: &Identity, count: PlaceCount) -> u32
    ensures value { result ≡ place id.now count }
    ensures below { result < count }
{
    let serial = id.serial.bytes();
    let mut hasher = Sha256::new();
    hasher.update(b"CCPLACE");
    hasher.update(id.issuer.bytes());
    hasher.update(&[serial.len() as u8]);
    hasher.update(serial);
    reduced(hasher.finalize(), count)
}

/// The place of an issuer among so many, by which all its identities have one place. Digested are the mark `CCISSUER`
/// and the issuer, which is the SHA-256 of its DER SubjectPublicKeyInfo; the number is as for `place_of`.
pub fn place_of_issuer(issuer: &Key32, count: PlaceCount) -> u32
    ensures value { result ≡ issuer_place issuer.now count }
    ensures below { result < count }
{
    let mut hasher = Sha256::new();
    hasher.update(b"CCISSUER");
    hasher.update(issuer.bytes());
    reduced(hasher.finalize(), count)
}

/// The place of an identity among so many, by its issuer or by itself.
pub fn place_in(by: By, id: &Identity, count: PlaceCount) -> u32
    ensures value { result ≡ place_in by count id.now }
    ensures below { result < count }
{
    match by {
        By::Issuer => place_of_issuer(&id.issuer, count),
        By::Identity => place_of(id, count),
    }
}
