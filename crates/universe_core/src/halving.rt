//! Entries sorted by several threads, of which each takes the identities between two, and merged with items.

ghost use Rattle.std.specs.Prelude.{◌≡◌, ◌+◌, ◌^◌, ◌≤◌, ◌<◌, true, false, length, take, drop, OnOk, IfOk, All};
ghost use Rattle.std.specs.List.{Contains};
ghost use Rattle.std.specs.List.Sorted.{IsPermutation, IsStrictlySortedBy};
ghost use Rattle.std.specs.Ordering.{is_lt};
ghost use Rattle.std.specs.Thread.{IsSync};
ghost use Rattle.ident_core.specs.Order.{identity_cmp};
ghost use Rattle.ledger_core.specs.LedgerFields.{ids};
ghost use Rattle.universe_core.specs.Merges.{AreMergeable, IsMergedBehind, IsMergeOf};
ghost use Rattle.universe_core.specs.Merging.{IsRising};
ghost use Rattle.universe_core.specs.Reading.{entries_of};
ghost use Rattle.universe_core.specs.Sorting.{AreHalves, IsSortOf};

use crate::judging::Context;
use crate::merging::{Merged, merge, merge_unsorted, no_members};
use crate::read_entry::ReadEntry;
use crate::reading::{order, sort_entries};
use crate::threading::FEW;
use ident_core::Identity;
use ledger_core::LedgerItem;
use std::alloc::{AllocError, Global};
use std::thread::{Threads, join_mut};

/// So many entries tell which one is in the middle.
const SAMPLED: usize = 256;

/// An entry that about half of the entries come before, as evenly spaced ones tell.
fn middle(entries: &[ReadEntry]) -> ReadEntry
    requires { SAMPLED ≤ length entries.now }
    ensures { Contains entries.now result }
{
    let step = entries.len() / SAMPLED;
    let mut sample = [entries[0]; SAMPLED];
    for i in 0..SAMPLED {
        sample[i] = entries[i * step];
    }
    sort_entries(&mut sample);
    sample[SAMPLED / 2]
}

/// Puts the entries that come before a middle one in front of the others, and says how many they are, and which it is.
fn put_in_halves(entries: &mut [ReadEntry]) -> (usize, ReadEntry)
    requires { SAMPLED ≤ length entries.old }
    ensures within { result.0 ≤ length entries.old }
    ensures halves { AreHalves entries.old (take result.0 entries.new) (drop result.0 entries.new) result.1 }
{
    let cut = middle(entries);
    let mut front = 0;
    for i in 0..entries.len() {
        let before = order(&entries[i], &cut).is_lt();
        entries.swap(i, front);
        front += before as usize;
    }
    (front, cut)
}

/// How many items come before an identity.
fn items_before(items: &[LedgerItem], id: &Identity) -> usize
    requires { IsStrictlySortedBy identity_cmp (ids items.now) }
    ensures within { result ≤ length items.now }
    ensures front { All (λ i. is_lt (identity_cmp i.id id.now) ≡ true) (take result items.now) }
    ensures back { All (λ i. is_lt (identity_cmp i.id id.now) ≡ false) (drop result items.now) }
{
    items.partition_point(|i| i.id.cmp(id).is_lt())
}

/// Sorts the entries by their identities, by so many threads: those before a middle one by a half of them, and the others
/// by the rest, until each has its own.
#[cycle(sort_halves)]
fn sort_halves<R: Threads + Sync>(rt: &R, entries: &mut [ReadEntry], threads: usize)
    ensures { IsSortOf entries.old entries.new }
{
    if threads < 2 || entries.len() < FEW {
        sort_entries(entries);
        return;
    }
    let (place, _) = put_in_halves(entries);
    let (low, high) = entries.split_at_mut(place);
    let half = threads / 2;
    let other = threads - half;
    let mut front = ||
        requires { IsSync R.row }
        ensures { IsSortOf low.entry.now low.exit.now }
    { sort_halves(rt, low, half) };
    let mut back = ||
        requires { IsSync R.row }
        ensures { IsSortOf high.entry.now high.exit.now }
    { sort_halves(rt, high, other) };
    join_mut(rt, &mut front, &mut back);
}

/// As `merge_unsorted`, by so many threads. A half of the entries is merged by one while the others sort those behind it.
pub(crate) fn merge_in_threads<R: Threads + Sync>(
    rt: &R,
    alloc: Global,
    context: &Context,
    items: &[LedgerItem],
    entries: &mut [ReadEntry],
    threads: usize,
) -> Result<Merged, AllocError>
    requires mergeable { AreMergeable context.now items.now entries.old }
    ensures same { OnOk result (IsPermutation entries.old entries.new) }
    ensures merged { IfOk result (IsMergeOf context.now items.now entries.new) }
{
    if entries.len() < FEW {
        return merge_unsorted(alloc, context, items, entries);
    }
    let mut members = no_members(alloc, items.len().saturating_add(entries.len()))?;
    let (place, cut) = put_in_halves(entries);
    let (low, high) = entries.split_at_mut(place);
    let (items_low, items_high) = items.split_at(items_before(items, &cut.id(context.issuers)));
    sort_halves(rt, low, threads);
    let sorted: &[ReadEntry] = low;
    let mut sort_rest = ||
        requires { IsSync R.row }
        ensures { IsSortOf high.entry.now high.exit.now }
    { sort_halves(rt, high, threads) };
    let mut merge_first = || -> Result<usize, AllocError>
        requires { AreMergeable context.now items_low.now sorted.now
            × IsRising (entries_of context.now.issuers.now context.now.ranges.now sorted.now) }
        ensures { IfOk result (IsMergedBehind context.entry.now items_low.entry.now sorted.entry.now
            members.entry.items.items members.entry.settled.items members.exit) }
    { merge(&mut members, context, items_low, sorted) };
    let (_, merged) = join_mut(rt, &mut sort_rest, &mut merge_first);
    let first = merged?;
    let rest = merge(&mut members, context, items_high, high)?;
    let late = first + rest;
    Ok(Merged { members, late })
}
