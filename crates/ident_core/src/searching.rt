ghost use Rattle.std.specs.Prelude.{◌≡◌, ◌&&◌, Some, IfSome, IsNone, is_some, slice_get, nat_le, true, false};
ghost use Rattle.std.specs.Option.{option_map};
ghost use Rattle.std.specs.List.Sorted.{IsStrictlySortedBy};
ghost use Rattle.ident_core.specs.Coverage.{AreRanges, covers, is_within};
ghost use Rattle.ident_core.specs.Order.{identity_cmp, octets_cmp};
ghost use Rattle.ident_core.specs.Sets.{has, has_key};

use crate::identity::Identity;
use crate::range::{Range, Sighting};
use octets_core::{Key32, key_order};
use std::cmp::Ordering;

/// The place of the key among ascending keys, counted from 0. A binary search.
pub fn place_of_key(keys: &[Key32], key: &Key32) -> Option<usize>
    requires sorted { IsStrictlySortedBy octets_cmp keys.now }
    ensures some { IfSome result (λ i. slice_get keys.now i ≡ Some key.now) }
    ensures none { IsNone result → has_key keys.now key.now ≡ false }
{
    match keys.binary_search_by(|k| key_order(k, key)) {
        Ok(place) => Some(place),
        Err(_) => None,
    }
}

/// The same, where a guess tells the place, as that of a key asked for before does. A search is made only where another
/// key has that place.
pub fn place_of_key_near(keys: &[Key32], guess: usize, key: &Key32) -> Option<usize>
    requires sorted { IsStrictlySortedBy octets_cmp keys.now }
    ensures some { IfSome result (λ i. slice_get keys.now i ≡ Some key.now) }
    ensures none { IsNone result → has_key keys.now key.now ≡ false }
{
    match keys.get(guess) {
        Some(there) if *there == *key => Some(guess),
        _ => place_of_key(keys, key),
    }
}

/// Whether ascending keys hold the key. A binary search.
pub fn holds_key(keys: &[Key32], key: &Key32) -> bool
    requires sorted { IsStrictlySortedBy octets_cmp keys.now }
    ensures { result ≡ has_key keys.now key.now }
{
    place_of_key(keys, key).is_some()
}

/// The place of the identity among ascending identities, counted from 0. A binary search.
pub fn place_of(ids: &[Identity], id: &Identity) -> Option<usize>
    requires sorted { IsStrictlySortedBy identity_cmp ids.now }
    ensures some { IfSome result (λ i. slice_get ids.now i ≡ Some id.now) }
    ensures none { IsNone result → has ids.now id.now ≡ false }
{
    ids.binary_search(id).ok()
}

fn order(range: &Range, log: &Key32) -> Ordering
    ensures { result ≡ octets_cmp range.now.log log.now }
{
    key_order(&range.log, log)
}

fn holds_time(range: &Range, time: u64) -> bool
    ensures { result ≡ (nat_le range.now.from time && nat_le time range.now.to) }
{
    range.from <= time && time <= range.to
}

/// The place of the range that covers the sighting, counted from 0, among ranges whose logs ascend. A binary search by
/// the log, of which there is at most one range.
pub fn place_covering(ranges: &[Range], s: &Sighting) -> Option<usize>
    requires sorted { AreRanges ranges.now }
    ensures covers { is_some result ≡ covers ranges.now s.now }
    ensures some { IfSome result (λ i. option_map (is_within s.now) (slice_get ranges.now i) ≡ Some true) }
{
    match ranges.binary_search_by(|r| order(r, &s.log)) {
        Ok(place) => if holds_time(&ranges[place], s.time) {
            Some(place)
        } else {
            None
        },
        Err(_) => None,
    }
}

/// Whether one of ranges whose logs ascend covers the sighting. A binary search.
pub fn covers_sorted(ranges: &[Range], s: &Sighting) -> bool
    requires sorted { AreRanges ranges.now }
    ensures { result ≡ covers ranges.now s.now }
{
    place_covering(ranges, s).is_some()
}

/// The same, where a guess tells the place of the log's range, as other ranges of the same logs have it. A search is made
/// only where another log has that place.
pub fn covers_near(ranges: &[Range], guess: usize, s: &Sighting) -> bool
    requires sorted { AreRanges ranges.now }
    ensures { result ≡ covers ranges.now s.now }
{
    match ranges.get(guess) {
        Some(range) if range.log == s.log => holds_time(range, s.time),
        _ => covers_sorted(ranges, s),
    }
}
