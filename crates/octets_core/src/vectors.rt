//! Numbers and length-prefixed vectors at the front of bytes, as RFC 5246 spells them (4.3 and 4.4).
//! Each function answers what stands there and the bytes behind it, and `None` where it isn't there whole.

ghost use Rattle.std.specs.Prelude.{◌≡◌, ◌≤◌, ◌<◌, ◌^◌, ℕ, List, length, IfSome};
ghost use Rattle.std.specs.Option.{option_map};
ghost use Rattle.octets_core.specs.Numbers.{number};
ghost use Rattle.octets_core.specs.Vectors.{bytes_field, number_field, vector, some_vector};

/// The number that at most eight bytes spell, greatest byte first.
pub fn number_of(bytes: &[u8]) -> u64
    requires { length bytes.now ≤ 8 }
    ensures value { result ≡ number bytes.now }
    ensures bound { result < 256 ^ length bytes.now }
{
    let mut n = 0u64;
    for b in bytes {
        n = n * 256 + *b as u64;
    }
    n
}

/// So many bytes.
#[tactic(auto, unfolding(crate::specs::Vectors::bytes_field))]
pub fn split_bytes(bytes: &[u8], n: usize) -> Option<(&[u8], &[u8])>
    ensures exact { option_map {U = List ℕ × List ℕ} (λ x. (x.0.now, x.1.now)) result ≡ bytes_field n bytes.now }
    ensures len { IfSome result (λ x. length x.0.now ≡ n) }
{
    if bytes.len() < n {
        return None;
    }
    Some(bytes.split_at(n))
}

/// A number of `width` bytes.
#[tactic(auto, unfolding(crate::specs::Vectors::number_field))]
pub fn split_number(bytes: &[u8], width: usize) -> Option<(u64, &[u8])>
    requires { width ≤ 8 }
    ensures exact { option_map {U = ℕ × List ℕ} (λ x. (x.0, x.1.now)) result ≡ number_field width bytes.now }
    ensures bound { IfSome result (λ x. x.0 < 256 ^ width) }
{
    let (front, rest) = split_bytes(bytes, width)?;
    Some((number_of(front), rest))
}

/// A vector with a length of `width` bytes before it.
#[tactic(auto, unfolding(crate::specs::Vectors::vector))]
pub fn split_vector(bytes: &[u8], width: usize) -> Option<(&[u8], &[u8])>
    requires { width ≤ 8 }
    ensures { option_map {U = List ℕ × List ℕ} (λ x. (x.0.now, x.1.now)) result ≡ vector width bytes.now }
{
    let (n, rest) = split_number(bytes, width)?;
    split_bytes(rest, n as usize)
}

/// The same, of one byte or more.
#[tactic(auto, unfolding(crate::specs::Vectors::some_vector))]
pub fn split_some_vector(bytes: &[u8], width: usize) -> Option<(&[u8], &[u8])>
    requires { width ≤ 8 }
    ensures { option_map {U = List ℕ × List ℕ} (λ x. (x.0.now, x.1.now)) result ≡ some_vector width bytes.now }
{
    let (front, rest) = split_vector(bytes, width)?;
    if front.len() == 0 {
        return None;
    }
    Some((front, rest))
}
