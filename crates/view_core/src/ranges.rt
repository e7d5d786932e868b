//! Ranges that stand in bytes, searched by halves.

ghost use Rattle.std.specs.Prelude.{◌≡◌, ℕ, List, ◌<◌, ◌^◌, ◌+◌, ◌*◌, map};
ghost use Rattle.std.specs.List.{find, list_any};
ghost use Rattle.std.specs.Str.{bytes_eq};
ghost use Rattle.ident_core.specs.declared.layout.TheConstants.{RANGE_BYTES};
ghost use Rattle.ident_core.specs.declared.range.Range.{Range};
ghost use Rattle.ident_core.specs.Coverage.{covers, lies_in_some, first_outside};
ghost use Rattle.ident_core.specs.RangeText.{RangeFits, range_text};
ghost use Rattle.view_core.specs.Texts.{Stands};
ghost use Rattle.view_core.specs.Standing.{AreRangesAt};

use crate::reading::{key_at, number64_at, order_at};
use crate::seen::Seen;
use ident_core::{RANGE_BYTES, Range, Sighting};
use octets_core::Key32;
use std::cmp::Ordering;

/// Ranges that stand one after the other.
#[derive(Clone, Copy, Debug)]
pub(crate) struct RangesAt {
    /// The offset of the first.
    pub at: usize,
    pub count: usize,
}

/// The range that stands at this place.
fn range_at(bytes: &[u8], at: usize) -> Range
    requires place { at < 2 ^ 63 }
    ensures { (r : Range) → RangeFits r → Stands bytes.now at (range_text r) → result ≡ r }
{
    Range {
        log: key_at(bytes, at),
        from: number64_at(bytes, at + 32),
        to: number64_at(bytes, at + 40),
    }
}

/// The range of the log, if there is one.
pub(crate) fn range_of(bytes: &[u8], ranges: RangesAt, log: &Key32) -> Option<Range>
    requires place { ranges.at + RANGE_BYTES * ranges.count < 2 ^ 63 }
    ensures { (list : List Range) → AreRangesAt bytes.now ranges.at ranges.count list → result ≡ find (λ r. bytes_eq r.log log.now) list }
{
    let mut low = 0;
    let mut high = ranges.count;
    while low < high {
        let middle = low + (high - low) / 2;
        let at = ranges.at + RANGE_BYTES * middle;
        match order_at(bytes, at, log) {
            Ordering::Equal => return Some(range_at(bytes, at)),
            Ordering::Less => low = middle + 1,
            Ordering::Greater => high = middle,
        }
    }
    None
}

/// Whether one of the ranges covers the sighting.
fn covers_at(bytes: &[u8], ranges: RangesAt, s: &Sighting) -> bool
    requires place { ranges.at + RANGE_BYTES * ranges.count < 2 ^ 63 }
    ensures { (list : List Range) → AreRangesAt bytes.now ranges.at ranges.count list → result ≡ covers list s.now }
{
    match range_of(bytes, ranges, &s.log) {
        Some(range) => range.from <= s.time && s.time <= range.to,
        None => false,
    }
}

/// Whether the ranges cover one of the sightings.
pub(crate) fn cover_some_at<S: Seen>(bytes: &[u8], ranges: RangesAt, sightings: &[S]) -> bool
    requires place { ranges.at + RANGE_BYTES * ranges.count < 2 ^ 63 }
    ensures { (list : List Range) → AreRangesAt bytes.now ranges.at ranges.count list
        → result ≡ list_any (covers list) (map S.sighting sightings.now) }
{
    for s in sightings {
        if covers_at(bytes, ranges, &s.sighting()) {
            return true;
        }
    }
    false
}

/// Whether the range lies in one of the ranges.
fn lies_in_at(bytes: &[u8], ranges: RangesAt, r: &Range) -> bool
    requires place { ranges.at + RANGE_BYTES * ranges.count < 2 ^ 63 }
    ensures { (list : List Range) → AreRangesAt bytes.now ranges.at ranges.count list → result ≡ lies_in_some list r.now }
{
    match range_of(bytes, ranges, &r.log) {
        Some(outer) => outer.from <= r.from && r.to <= outer.to,
        None => false,
    }
}

/// The log of the first old range that lies in none of the new ones. The old ones stand in the bytes that are held, and
/// the new ones in those that are given.
pub(crate) fn first_outside_at(
    held_bytes: &[u8],
    old: RangesAt,
    given_bytes: &[u8],
    new: RangesAt,
) -> Option<Key32>
    requires old_place { old.at + RANGE_BYTES * old.count < 2 ^ 63 }
    requires new_place { new.at + RANGE_BYTES * new.count < 2 ^ 63 }
    ensures { (before after : List Range) → AreRangesAt held_bytes.now old.at old.count before
        → AreRangesAt given_bytes.now new.at new.count after → result ≡ first_outside before after }
{
    for i in 0..old.count {
        let range = range_at(held_bytes, old.at + RANGE_BYTES * i);
        if !lies_in_at(given_bytes, new, &range) {
            return Some(range.log);
        }
    }
    None
}
