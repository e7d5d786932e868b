//! The sum of a row in a plane that stands in bytes.

ghost use Rattle.std.specs.Prelude.{◌≡◌, ℕ, ◌<◌, ◌≤◌, ◌^◌, ◌+◌, ◌*◌, ◌/◌, ◌%◌, bit_and};
ghost use Rattle.part_text.specs.PlaneBytes.{bytes_of_columns};
ghost use Rattle.ribbon_core.specs.Equations.{parity};
ghost use Rattle.view_core.specs.Texts.{Stands};

use crate::reading::number64_at;
use octets_core::Steps;
use std::sync::ledger::Ledger;

/// Word `i` of a plane that stands at this place. It takes a step.
fn word_at<L: Ledger>(bytes: &[u8], at: usize, i: usize, words: &mut Steps<L>) -> u64
    requires few { i < 2 ^ 32 }
    requires place { at < 2 ^ 63 + 2 ^ 32 }
    ensures value { (width Z : ℕ) → i < width → Stands bytes.now at (bytes_of_columns width Z)
        → result ≡ Z / 2 ^ (64 * i) % 2 ^ 64 }
    ensures steps { words.new ≡ words.old + 1 }
{
    words.tick();
    number64_at(bytes, at + 8 * i)
}

/// The sum modulo 2 of the columns from `start` on that the coefficient chooses, in a plane that stands at this place.
pub(crate) fn sum_at<L: Ledger>(
    bytes: &[u8],
    at: usize,
    start: u32,
    coeff: u128,
    words: &mut Steps<L>,
) -> u8
    requires place { at < 2 ^ 63 + 2 ^ 32 }
    ensures value { (width Z : ℕ) → start + 127 < 64 * width → Stands bytes.now at (bytes_of_columns width Z)
        → result ≡ parity (bit_and coeff (Z / 2 ^ start)) }
    ensures bit { result < 2 }
    ensures more { words.old ≤ words.new }
    ensures steps { words.new ≤ words.old + 3 }
{
    let first = (start / 64) as usize;
    let shift = start % 64;
    let masks = coeff << shift;
    let low = word_at(bytes, at, first, words) & (masks & 0xffff_ffff_ffff_ffff) as u64;
    let middle = word_at(bytes, at, first + 1, words) & (masks >> 64) as u64;
    let pair = low ^ middle;
    if shift == 0 {
        return (pair.count_ones() & 1) as u8;
    }
    let high = word_at(bytes, at, first + 2, words) & (coeff >> (128 - shift)) as u64;
    ((pair ^ high).count_ones() & 1) as u8
}
