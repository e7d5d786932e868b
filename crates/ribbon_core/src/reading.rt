ghost use Rattle.std.specs.Prelude.{◌≡◌, ℕ, ◌+◌, ◌*◌, ◌/◌, ◌%◌, ◌^◌, ◌<◌, ◌≤◌, length, slice_index, if◌then◌else◌, ◌==◌, bit_and, bit_xor};
ghost use Rattle.std.specs.Int.{bit_at};
ghost use Rattle.equation_core.specs.declared.hash.TheConstants.{MAX_PLANES};
ghost use Rattle.ribbon_core.specs.Equations.{parity};
ghost use Rattle.ribbon_core.specs.PlaneWords.{kept_plane, kept_word, place as place_of};

use crate::places::place;
use octets_core::Steps;
use std::simd::prelude::*;
use std::simd::u64x16;
use std::sync::ledger::Ledger;

// Of each plane, in a bit, the sum of the columns from `start` on that the coefficient chooses. It takes 2 steps a
// plane where these begin a word, and else 3.
pub fn sums_of<L: Ledger>(
    words: &[u64],
    planes: u8,
    start: usize,
    coeff: u128,
    steps: &mut Steps<L>,
) -> u16
    requires planes { planes ≤ MAX_PLANES }
    requires room { (start + 127) / 64 * planes + MAX_PLANES ≤ length words.now }
    ensures sums { (width plane : ℕ) → start + 127 < 64 * width → plane < planes
        → bit_at result plane ≡ parity (bit_and coeff (kept_plane words.now planes width plane / 2 ^ start)) }
    ensures few_planes { result < 2 ^ planes }
    ensures steps { steps.new ≡ steps.old + planes * (if start % 64 == 0 then 2 else 3) }
{
    let lanes = chosen_lanes(words, planes, start, coeff, steps).to_array();
    let mut sums = 0u16;
    for plane in 0..planes {
        let sum = (lanes[plane as usize].count_ones() & 1) as u16;
        sums |= sum << plane;
    }
    sums
}

// In the lane of each plane, a word whose set bits are as many, modulo 2, as those of the columns that are chosen.
fn chosen_lanes<L: Ledger>(
    words: &[u64],
    planes: u8,
    start: usize,
    coeff: u128,
    steps: &mut Steps<L>,
) -> u64x16
    requires room { (start + 127) / 64 * planes + MAX_PLANES ≤ length words.now }
    ensures lanes { length result ≡ MAX_PLANES }
    ensures sums { (width plane : ℕ) → start + 127 < 64 * width → plane < planes → plane < MAX_PLANES
        → parity (slice_index result plane) ≡ parity (bit_and coeff (kept_plane words.now planes width plane / 2 ^ start)) }
    ensures steps { steps.new ≡ steps.old + planes * (if start % 64 == 0 then 2 else 3) }
{
    let first = start / 64;
    let shift = (start % 64) as u32;
    let masks = coeff << shift;
    let low = run_of(
        words,
        planes,
        first,
        (masks & 0xffff_ffff_ffff_ffff) as u64,
        steps,
    );
    let middle = run_of(words, planes, first + 1, (masks >> 64) as u64, steps);
    let pair = xor_lanes(low, middle);
    if shift == 0 {
        return pair;
    }
    let high = run_of(
        words,
        planes,
        first + 2,
        (coeff >> (128 - shift)) as u64,
        steps,
    );
    xor_lanes(pair, high)
}

// Word `i` of each plane in a lane, with only the bits of the mask. The lanes above the planes hold words of the next
// runs. It takes a step a plane.
fn run_of<L: Ledger>(words: &[u64], planes: u8, i: usize, mask: u64, steps: &mut Steps<L>) -> u64x16
    requires room { i * planes + MAX_PLANES ≤ length words.now }
    ensures lanes { length result ≡ MAX_PLANES }
    ensures each { (plane : ℕ) → plane < MAX_PLANES → slice_index result plane ≡ bit_and (kept_word words.now planes plane i) mask }
    ensures steps { steps.new ≡ steps.old + planes }
{
    for _ in 0..planes {
        steps.tick();
    }
    let from = place(planes, 0, i);
    u64x16::from_slice(&words[from..]) & u64x16::splat(mask)
}

fn xor_lanes(a: u64x16, b: u64x16) -> u64x16
    requires a { length a ≡ MAX_PLANES }
    requires b { length b ≡ MAX_PLANES }
    ensures lanes { length result ≡ MAX_PLANES }
    ensures each { (k : ℕ) → k < MAX_PLANES → slice_index result k ≡ bit_xor (slice_index a k) (slice_index b k) }
{
    a ^ b
}

// Word `i` of a plane. It takes a step.
pub fn word_of<L: Ledger>(
    words: &[u64],
    planes: u8,
    plane: u8,
    i: usize,
    steps: &mut Steps<L>,
) -> u64
    requires inside { place_of planes plane i < length words.now }
    ensures value { (width : ℕ) → i < width → result ≡ kept_plane words.now planes width plane / 2 ^ (64 * i) % 2 ^ 64 }
    ensures steps { steps.new ≡ steps.old + 1 }
{
    steps.tick();
    words[place(planes, plane, i)]
}
