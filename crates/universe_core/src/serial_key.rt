ghost use Rattle.std.specs.Prelude.{◌≡◌, ◌<◌, ℕ, get_or};
ghost use Rattle.universe_core.specs.Placing.{IsKeyOf, head_of, keyed_cmp};

use ident_core::Serial;
use std::cmp::Ordering;

/// What a serial is ordered by before it is looked at whole.
#[derive(Clone, Copy)]
pub(crate) struct SerialKey {
    /// The first eight octets, as a number.
    pub(crate) head: u64,
    /// How many octets it has.
    pub(crate) length: u8,
}

/// The number that the first eight octets spell, greatest first, and 0 for fewer.
fn head(octets: &[u8]) -> u64
    ensures value { result ≡ head_of octets.now }
    ensures octets { (i : ℕ) → get_or octets.now i 0 < 256 }
{
    if octets.len() < 8 {
        return 0;
    }
    let mut first = [0u8; 8];
    first.copy_from_slice(&octets[..8]);
    u64::from_be_bytes(first)
}

pub(crate) fn key_of(serial: &Serial) -> SerialKey
    ensures { IsKeyOf serial.now result }
{
    let octets = serial.bytes();
    SerialKey {
        head: head(octets),
        length: octets.len() as u8,
    }
}

/// How serials with these keys are ordered: the whole ones are looked at only where both have as many octets and begin
/// with the same eight.
pub(crate) fn order_serials(x: &Serial, x_key: SerialKey, y: &Serial, y_key: SerialKey) -> Ordering
    ensures { result ≡ keyed_cmp x.now x_key y.now y_key }
{
    if x_key.length != y_key.length {
        return x_key.length.cmp(&y_key.length);
    }
    if x_key.head != y_key.head {
        return x_key.head.cmp(&y_key.head);
    }
    x.cmp(y)
}
