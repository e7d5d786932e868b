ghost use Rattle.std.specs.Prelude.{◌≡◌, ◌<◌, List, ℕ, length, get_or, take};
ghost use Rattle.std.specs.Ordering.{nat_cmp};
ghost use Rattle.std.specs.Cmp.Lexicographic.{slice_cmp};
ghost use Rattle.octets_core.specs.Linked.{is_after as is_key_after};
ghost use Rattle.octets_core.specs.Numbers.{number};

use std::cmp::Ordering;
use std::marker::Model;

/// A digest of 32 bytes, as the name of a key or a log. Keys are ordered by their bytes.
#[derive(Clone, Copy, Debug, PartialEq, Eq, PartialOrd, Ord, Hash)]
pub struct Key32 {
    bytes: [u8; 32],
}

impl Model for Key32 {
    ghost Value = { List ℕ };

    ghost view = { λ k. k.bytes };

    ghost inverse = { λ bytes. record { bytes = bytes } };
}

impl Key32 {
    /// The key of these bytes.
    pub fn new(bytes: [u8; 32]) -> Key32
        ensures { result ≡ bytes }
    {
        Key32 { bytes }
    }

    /// Its bytes.
    pub fn bytes(&self) -> &[u8; 32]
        ensures value { result.now ≡ self.now }
        ensures len { length self.now ≡ 32 }
    {
        &self.bytes
    }
}

/// The key that a slice of 32 bytes holds.
pub fn key_of(bytes: &[u8]) -> Key32
    requires { length bytes.now ≡ 32 }
    ensures { result ≡ bytes.now }
{
    let mut copy = [0u8; 32];
    copy.copy_from_slice(bytes);
    Key32::new(copy)
}

/// The number that the first eight octets spell, greatest first.
fn first_eight(octets: &[u8; 32]) -> u64
    ensures value { result ≡ number (take 8 octets.now) }
    ensures octets { (i : ℕ) → get_or octets.now i 0 < 256 }
{
    u64::from_be_bytes([
        octets[0], octets[1], octets[2], octets[3], octets[4], octets[5], octets[6], octets[7],
    ])
}

/// How `cmp` orders two keys, found by their first eight octets as a number, which tells most digests apart in one step.
pub fn key_order(x: &Key32, y: &Key32) -> Ordering
    ensures { result ≡ slice_cmp nat_cmp x.now y.now }
{
    let first = first_eight(x.bytes());
    let other = first_eight(y.bytes());
    if first != other {
        return first.cmp(&other);
    }
    x.cmp(y)
}

/// Whether the key is above the one before it, if there is one.
pub fn is_after(previous: Option<Key32>, key: &Key32) -> bool
    ensures { result ≡ is_key_after previous key.now }
{
    match previous {
        None => true,
        Some(previous) => key_order(&previous, key).is_lt(),
    }
}
