ghost use Rattle.std.specs.Prelude.{◌≡◌, ◌↔◌, IsTrue, IsNone};
ghost use Rattle.ident_core.specs.Coverage.{Covers, covers as covers_of, LiesWithin, first_outside};
ghost use Rattle.ident_core.specs.Coverage.{lies_in as lies, lies_in_some};
ghost use Rattle.ident_core.specs.Coverage.{AreRanges, RangesFit};

use crate::bounds::MAX_RANGES;
use octets_core::{Key32, is_after, key_order};

/// When a log saw a certificate.
#[derive(Clone, Copy, Debug, PartialEq, Eq)]
pub struct Sighting {
    pub log: Key32,
    /// The timestamp, in milliseconds since 1970-01-01 00:00:00 UTC (RFC 6962, 3.1).
    pub time: u64,
}

/// A span of a log's timestamps, in milliseconds. Both ends lie in it.
#[derive(Clone, Copy, Debug, PartialEq, Eq)]
pub struct Range {
    pub log: Key32,
    pub from: u64,
    pub to: u64,
}

/// Whether one of the ranges covers the sighting.
pub fn covers(ranges: &[Range], s: &Sighting) -> bool
    ensures meaning { IsTrue result ↔ Covers ranges.now s.now }
    ensures value { result ≡ covers_of ranges.now s.now }
{
    ranges
        .iter()
        .any(|r| r.log == s.log && r.from <= s.time && s.time <= r.to)
}

fn lies_in(r: &Range, outer: &Range) -> bool
    ensures { result ≡ lies r.now outer.now }
{
    outer.log == r.log && outer.from <= r.from && r.to <= outer.to
}

/// Whether the range lies in the one that a binary search by its log finds. Where the logs ascend there is no other.
fn lies_in_found(new: &[Range], r: &Range) -> bool
    ensures { IsTrue result → IsTrue (lies_in_some new.now r.now) }
{
    match new.binary_search_by(|outer| key_order(&outer.log, &r.log)) {
        Ok(place) => lies_in(r, &new[place]),
        Err(_) => false,
    }
}

fn lies_in_one(new: &[Range], r: &Range) -> bool
    ensures { result ≡ lies_in_some new.now r.now }
{
    // Where the logs ascend, a range that lies in none is the only one compared with each, and none is asked after it.
    lies_in_found(new, r) || new.iter().any(|outer| lies_in(r, outer))
}

fn first_log_outside(old: &[Range], new: &[Range]) -> Option<Key32>
    ensures { result ≡ first_outside old.now new.now }
{
    old.iter().find(|r| !lies_in_one(new, r)).map(|r| r.log)
}

/// The log of the first old range that doesn't lie in a new range of its log.
pub fn shrinks(old: &[Range], new: &[Range]) -> Option<Key32>
    ensures none { IsNone result ↔ LiesWithin old.now new.now }
    ensures first { result ≡ first_outside old.now new.now }
{
    first_log_outside(old, new)
}

fn are_ranges(ranges: &[Range]) -> bool
    ensures { IsTrue result ↔ AreRanges ranges.now }
{
    let mut previous = None;
    for r in ranges {
        if !is_after(previous, &r.log) || r.to < r.from {
            return false;
        }
        previous = Some(r.log);
    }
    true
}

/// Whether the head of a part may hold the ranges: at most 1,024, logs strictly ascending, none that ends before it
/// begins.
pub fn ranges_fit(ranges: &[Range]) -> bool
    ensures { IsTrue result ↔ RangesFit ranges.now }
{
    ranges.len() <= MAX_RANGES && are_ranges(ranges)
}
