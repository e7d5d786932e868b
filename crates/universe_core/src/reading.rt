ghost use Rattle.std.specs.List.Sorted.{IsStrictlySortedBy};
ghost use Rattle.std.specs.List.{filter_map, cons_option, count_by};
ghost use Rattle.std.specs.Option.{option_map};
ghost use Rattle.std.specs.Prelude.{◌≡◌, ◌≤◌, ◌<◌, None, IfOk, IfSome, OnOk, All, [], ◌++◌, length};
ghost use Rattle.ident_core.specs.Coverage.{RangesFit};
ghost use Rattle.ident_core.specs.Order.{octets_cmp};
ghost use Rattle.universe_core.specs.Reading.{if_read, IsPlaced, entry_fields, entries_of, class_alone, with_class};
ghost use Rattle.universe_core.specs.Counting.{is_class};
ghost use Rattle.universe_core.specs.Placing.{placed_cmp};
ghost use Rattle.universe_core.specs.Sorting.{IsSortOf};
ghost use Rattle.universe_core.specs.declared.class.Class.TheVariants as class;

use crate::class::Class;
use crate::read_entry::ReadEntry;
use crate::serial_key::{key_of, order_serials};
use ident_core::{Range, place_covering, place_of_key};
use log_core::Entry;
use octets_core::Key32;
use std::alloc::{AllocError, Global};
use std::cmp::Ordering;

/// How many entries are of the classes that a job alone tells, and how many are read.
#[derive(Clone, Copy)]
pub(crate) struct Tally {
    pub(crate) unread: u32,
    pub(crate) uncovered: u32,
    pub(crate) unenrolled: u32,
    pub(crate) read: u32,
}

/// The entries that are read, and how many others there are.
#[derive(Drop)]
pub(crate) struct Reading {
    pub(crate) entries: Vec<ReadEntry>,
    pub(crate) tally: Tally,
}

/// What an entry is where no part lacks it, and what is kept of one that is read.
#[derive(Clone, Copy)]
struct Told {
    class: Class,
    entry: Option<ReadEntry>,
}

/// What is told of an entry.
#[tactic(auto, using(crate::proofs::Classes::class_unread))]
fn classify(ranges: &[Range], issuers: &[Key32], entry: &Option<Entry>) -> Told
    requires ranges { RangesFit ranges.now }
    requires sorted { IsStrictlySortedBy octets_cmp issuers.now }
    requires few { length issuers.now ≤ 65535 }
    ensures class { result.class ≡ class_alone ranges.now issuers.now entry.now }
    ensures entry { option_map (entry_fields issuers.now ranges.now) result.entry ≡ if_read ranges.now issuers.now entry.now }
    ensures placed { IfSome result.entry (IsPlaced issuers.now ranges.now) }
{
    let Some(entry) = entry else {
        return Told {
            class: Class::Unread,
            entry: None,
        };
    };
    let Some(near) = place_covering(ranges, &entry.sighting) else {
        return Told {
            class: Class::Uncovered,
            entry: None,
        };
    };
    let Some(place) = place_of_key(issuers, &entry.id.issuer) else {
        return Told {
            class: Class::Unenrolled,
            entry: None,
        };
    };
    let one = ReadEntry {
        time: entry.sighting.time,
        until: entry.until.unwrap_or(0),
        dated: entry.until.is_some(),
        place: place as u16,
        near: near as u16,
        serial: entry.id.serial,
    };
    Told {
        class: Class::Accepted,
        entry: Some(one),
    }
}

/// Keeps an entry that is read.
fn keep_entry(out: &mut Vec<ReadEntry>, entry: Option<ReadEntry>) -> Result<(), AllocError>
    ensures { OnOk result (out.new.items ≡ out.old.items ++ cons_option entry []) }
{
    if let Some(entry) = entry {
        out.push(entry)?;
    }
    Ok(())
}

fn counted(tally: Tally, class: Class) -> Tally
    requires unread { tally.unread < 4294967295 }
    requires uncovered { tally.uncovered < 4294967295 }
    requires unenrolled { tally.unenrolled < 4294967295 }
    requires read { tally.read < 4294967295 }
    ensures { result ≡ with_class class tally }
{
    let mut more = tally;
    match class {
        Class::Unread => more.unread += 1,
        Class::Uncovered => more.uncovered += 1,
        Class::Unenrolled => more.unenrolled += 1,
        Class::Late => {}
        Class::Accepted => more.read += 1,
    }
    more
}

/// Reads the entries that the ranges cover and whose issuers are enrolled, and counts the others.
pub(crate) fn read(
    alloc: Global,
    ranges: &[Range],
    issuers: &[Key32],
    entries: &[Option<Entry>],
) -> Result<Reading, AllocError>
    requires ranges { RangesFit ranges.now }
    requires sorted { IsStrictlySortedBy octets_cmp issuers.now }
    requires few_issuers { length issuers.now ≤ 65535 }
    requires few { length entries.now ≤ 4294967295 }
    ensures entries { IfOk result (λ r.
        entries_of issuers.now ranges.now r.entries.items
        ≡ filter_map (λ e. if_read ranges.now issuers.now e) entries.now) }
    ensures placed { IfOk result (λ r. All (IsPlaced issuers.now ranges.now) r.entries.items) }
    ensures unread { IfOk result (λ r. r.tally.unread
        ≡ count_by (λ e. is_class class.Unread (class_alone ranges.now issuers.now e)) entries.now) }
    ensures uncovered { IfOk result (λ r. r.tally.uncovered
        ≡ count_by (λ e. is_class class.Uncovered (class_alone ranges.now issuers.now e)) entries.now) }
    ensures read { IfOk result (λ r. r.tally.read
        ≡ count_by (λ e. is_class class.Accepted (class_alone ranges.now issuers.now e)) entries.now) }
    ensures unenrolled { IfOk result (λ r. r.tally.unenrolled
        ≡ count_by (λ e. is_class class.Unenrolled (class_alone ranges.now issuers.now e)) entries.now) }
{
    let mut left = Vec::with_capacity(alloc, entries.len())?;
    let mut tally = Tally {
        unread: 0,
        uncovered: 0,
        unenrolled: 0,
        read: 0,
    };
    for entry in entries {
        let told = classify(ranges, issuers, entry);
        keep_entry(&mut left, told.entry)?;
        tally = counted(tally, told.class);
    }
    Ok(Reading {
        entries: left,
        tally,
    })
}

/// How entries are ordered: by the places of their issuers, then as serials are.
pub(crate) fn order(x: &ReadEntry, y: &ReadEntry) -> Ordering
    ensures { result ≡ placed_cmp x.now y.now }
{
    if x.place != y.place {
        return x.place.cmp(&y.place);
    }
    order_serials(&x.serial, key_of(&x.serial), &y.serial, key_of(&y.serial))
}

/// Sorts the entries by their identities.
pub(crate) fn sort_entries(entries: &mut [ReadEntry])
    ensures { IsSortOf entries.old entries.new }
{
    entries.sort_unstable_by(|x, y| order(x, y));
}
