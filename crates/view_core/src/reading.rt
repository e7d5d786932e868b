//! Numbers and keys that stand at a place in bytes. Where too few bytes are there each reads as zeros.

ghost use Rattle.std.specs.Prelude.{◌≡◌, ℕ, List, ◌<◌, ◌≤◌, ◌^◌, ◌+◌, length, take, get_or, IfSome, IsSome, Some};
ghost use Rattle.std.specs.Cmp.Lexicographic.{slice_cmp};
ghost use Rattle.std.specs.Ordering.{nat_cmp};
ghost use Rattle.std.specs.Int.{w8, w16, w32, w64, to_be_bytes};
ghost use Rattle.octets_core.specs.Numbers.{number};
ghost use Rattle.view_core.specs.Texts.{Stands};

use octets_core::{Key32, key_of};
use std::cmp::Ordering;

/// So many bytes from a place on, if they are there.
#[tactic(auto, using(crate::proofs::Texts::stands_within, crate::proofs::Texts::stands_piece))]
pub(crate) fn bytes_at(bytes: &[u8], at: usize, count: usize) -> Option<&[u8]>
    ensures text { (text : List ℕ) → length text ≡ count → Stands bytes.now at text → IfSome result (λ found. found.now ≡ text) }
    ensures there { (text : List ℕ) → length text ≡ count → 0 < count → Stands bytes.now at text → IsSome result }
    ensures within { IfSome result (λ found. (length found.now ≡ count) × (at + count ≤ length bytes.now)) }
{
    if bytes.len() < count {
        return None;
    }
    let last = bytes.len() - count;
    if last < at {
        return None;
    }
    Some(&bytes[at..at + count])
}

/// The byte at a place.
pub(crate) fn number8_at(bytes: &[u8], at: usize) -> u8
    ensures { (n : ℕ) → n < 2 ^ 8 → Stands bytes.now at (to_be_bytes w8 n) → result ≡ n }
{
    match bytes_at(bytes, at, 1) {
        Some(b) => u8::from_be_bytes([b[0]]),
        None => 0,
    }
}

/// The number of two bytes, greatest first.
pub(crate) fn number16_at(bytes: &[u8], at: usize) -> u16
    ensures { (n : ℕ) → n < 2 ^ 16 → Stands bytes.now at (to_be_bytes w16 n) → result ≡ n }
{
    match bytes_at(bytes, at, 2) {
        Some(b) => u16::from_be_bytes([b[0], b[1]]),
        None => 0,
    }
}

/// The number of four bytes, greatest first.
pub(crate) fn number32_at(bytes: &[u8], at: usize) -> u32
    ensures { (n : ℕ) → n < 2 ^ 32 → Stands bytes.now at (to_be_bytes w32 n) → result ≡ n }
{
    match bytes_at(bytes, at, 4) {
        Some(b) => u32::from_be_bytes([b[0], b[1], b[2], b[3]]),
        None => 0,
    }
}

/// The number of eight bytes, greatest first.
pub(crate) fn number64_at(bytes: &[u8], at: usize) -> u64
    ensures { (n : ℕ) → n < 2 ^ 64 → Stands bytes.now at (to_be_bytes w64 n) → result ≡ n }
{
    match bytes_at(bytes, at, 8) {
        Some(b) => u64::from_be_bytes([b[0], b[1], b[2], b[3], b[4], b[5], b[6], b[7]]),
        None => 0,
    }
}

/// The number that the first eight bytes of a key spell that stands at a place, greatest first.
#[inline(always)]
pub(crate) fn first_eight_at(bytes: &[u8], at: usize) -> u64
    ensures value { (key : List ℕ) → length key ≡ 32 → Stands bytes.now at key → result ≡ number (take 8 key) }
    ensures octets { (i : ℕ) → get_or bytes.now i 0 < 256 }
{
    match bytes_at(bytes, at, 8) {
        Some(b) => u64::from_be_bytes([b[0], b[1], b[2], b[3], b[4], b[5], b[6], b[7]]),
        None => 0,
    }
}

/// How the key that stands at a place is ordered with another one. The numbers of their first eight bytes tell most
/// digests apart where they stand.
#[inline(always)]
pub(crate) fn order_at(bytes: &[u8], at: usize, other: &Key32) -> Ordering
    ensures { (key : List ℕ) → length key ≡ 32 → Stands bytes.now at key → result ≡ slice_cmp nat_cmp key other.now }
{
    let first = first_eight_at(bytes, at);
    let second = first_eight_at(other.bytes(), 0);
    if first != second {
        return first.cmp(&second);
    }
    let key = key_at(bytes, at);
    if key == *other {
        return Ordering::Equal;
    }
    key.cmp(other)
}

/// The key of 32 bytes.
pub(crate) fn key_at(bytes: &[u8], at: usize) -> Key32
    ensures { (key : List ℕ) → length key ≡ 32 → Stands bytes.now at key → result ≡ key }
{
    match bytes_at(bytes, at, 32) {
        Some(b) => key_of(b),
        None => Key32::new([0; 32]),
    }
}
