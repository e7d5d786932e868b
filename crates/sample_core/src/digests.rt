//! The digests that the keys and serials of a job are made of.

ghost use Rattle.std.specs.Prelude.{◌≡◌, ◌<◌, ◌++◌, codes};
ghost use Rattle.std.specs.Int.{w32, w64, to_be_bytes};
ghost use Rattle.sample_core.specs.Sample.{log_of, issuer_of, entry_digest};

use octets_core::Key32;
use sha2::{Digest, Sha256};
use std::marker::Model;

fn log_key(number: u64) -> Key32
    ensures { result ≡ log_of number }
{
    let mut hasher = Sha256::new();
    hasher.update(b"CCLOG");
    hasher.update(&number.to_be_bytes());
    Key32::new(hasher.finalize())
}

fn issuer_key(number: u64, issuer: u8) -> Key32
    ensures { result ≡ issuer_of number issuer }
{
    let mut hasher = Sha256::new();
    hasher.update(b"CCISSUER");
    hasher.update(&number.to_be_bytes());
    hasher.update(&[issuer]);
    Key32::new(hasher.finalize())
}

/// A job's number, with the digests that name its log and its issuers. Contracts see the number.
#[derive(Drop)]
pub struct Keys {
    number: u64,
    log: Key32,
    issuers: [Key32; 4],
}

impl Model for Keys {
    ghost use Rattle.std.specs.Prelude.{◌≡◌, ℕ, [], ◌∷◌};
    ghost use Rattle.sample_core.specs.Sample.{log_of, issuer_of};

    ghost Value = { ℕ };

    ghost view = { λ k. k.number };

    ghost invariant = { λ k. (k.log ≡ log_of k.number)
        × (k.issuers ≡ issuer_of k.number 0 ∷ issuer_of k.number 1 ∷ issuer_of k.number 2 ∷ issuer_of k.number 3 ∷ []) };
}

impl Keys {
    /// Those of the job of this number.
    pub fn new(number: u64) -> Keys
        ensures { result ≡ number }
    {
        Keys {
            number,
            log: log_key(number),
            issuers: [
                issuer_key(number, 0),
                issuer_key(number, 1),
                issuer_key(number, 2),
                issuer_key(number, 3),
            ],
        }
    }

    pub fn number(&self) -> u64
        ensures { result ≡ self.now }
    {
        self.number
    }

    pub fn log(&self) -> &Key32
        ensures { result.now ≡ log_of self.now }
    {
        &self.log
    }

    /// The issuer of this number, from 0 to 3.
    pub fn issuer(&self, issuer: u8) -> &Key32
        requires { issuer < 4 }
        ensures { result.now ≡ issuer_of self.now issuer }
    {
        &self.issuers[issuer as usize]
    }
}

fn message_of_entry(number: u64, entry: u32) -> [u8; 20]
    ensures { result ≡ codes "CCSAMPLE" ++ to_be_bytes w64 number ++ to_be_bytes w32 entry }
{
    let n = number.to_be_bytes();
    let i = entry.to_be_bytes();
    [
        b'C', b'C', b'S', b'A', b'M', b'P', b'L', b'E', n[0], n[1], n[2], n[3], n[4], n[5], n[6],
        n[7], i[0], i[1], i[2], i[3],
    ]
}

/// The digest whose first bytes stand in the entry's serial.
pub fn digest_of_entry(number: u64, entry: u32) -> [u8; 32]
    ensures { result ≡ entry_digest number entry }
{
    Sha256::digest(&message_of_entry(number, entry))
}
