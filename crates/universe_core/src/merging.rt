ghost use Rattle.std.specs.List.Sorted.{IsPermutation, IsStrictlySortedBy};
ghost use Rattle.std.specs.List.{cons_option, count_by, filter_map};
ghost use Rattle.std.specs.Option.{option_map};
ghost use Rattle.std.specs.Prelude.{◌≡◌, ◌≤◌, ◌++◌, Bool, List, [], length, map, OnOk, IfOk, ◌<◌, All};
ghost use Rattle.ident_core.specs.Order.{identity_cmp, octets_cmp};
ghost use Rattle.ident_core.specs.declared.range.Range.{Range as RangeFields};
ghost use Rattle.universe_core.specs.Merging.{IsRising, least_of, run_of, first_of, after_first, merged, lower};
ghost use Rattle.universe_core.specs.Merges.{AreMergeable, IsMergedBehind, IsMergeOf};
ghost use Rattle.universe_core.specs.Judging.{IsSearchable};
ghost use Rattle.ledger_core.specs.LedgerFields.{ledger_fields};
ghost use Rattle.universe_core.specs.Jobs.{JobFacts, enrolled};
ghost use Rattle.universe_core.specs.Reading.{if_read, IsPlaced, entries_of, comes_late_in};
ghost use Rattle.universe_core.specs.Members.{AreMembers, as_item, members_in};

use crate::judging::{Context, judge};
use crate::member::{Member, Members};
use crate::read_entry::ReadEntry;
use crate::reading::sort_entries;
use crate::threading::Threading;
use ident_core::{Identity, is_same};
use ledger_core::LedgerItem;
use octets_core::Key32;
use std::alloc::{AllocError, Global};

fn lower_of(x: &Identity, y: &Identity) -> Identity
    ensures { result ≡ lower x.now y.now }
{
    if x.cmp(y).is_lt() { *x } else { *y }
}

/// The least identity of both.
fn least(issuers: &[Key32], items: &[LedgerItem], entries: &[ReadEntry]) -> Option<Identity>
    requires { All (λ e. e.place < length issuers.now) entries.now }
    ensures { (ranges : List RangeFields) → result ≡ least_of items.now (entries_of issuers.now ranges entries.now) }
{
    match items.first() {
        None => match entries.first() {
            None => None,
            Some(entry) => Some(entry.id(issuers)),
        },
        Some(item) => match entries.first() {
            None => Some(item.id),
            Some(entry) => Some(lower_of(&item.id, &entry.id(issuers))),
        },
    }
}

/// How many entries from the first on are the identity's.
fn run_length(issuers: &[Key32], entries: &[ReadEntry], id: &Identity) -> usize
    requires { All (λ e. e.place < length issuers.now) entries.now }
    ensures value { (ranges : List RangeFields) → result ≡ length (run_of id.now (entries_of issuers.now ranges entries.now)) }
    ensures within { result ≤ length entries.now }
{
    for (i, e) in entries.iter().enumerate() {
        if !is_same(id, &e.id(issuers)) {
            return i;
        }
    }
    entries.len()
}

/// The first item, if it is the identity's.
fn first_item(items: &[LedgerItem], id: &Identity) -> Option<LedgerItem>
    ensures { result ≡ first_of id.now items.now }
{
    match items.first() {
        Some(item) => {
            if is_same(id, &item.id) {
                Some(*item)
            } else {
                None
            }
        }
        None => None,
    }
}

/// The items behind it.
fn after_item<'a>(items: &'a [LedgerItem], id: &Identity) -> &'a [LedgerItem]
    ensures { result.now ≡ after_first id.now items.now }
{
    match items.split_first() {
        Some((item, rest)) => { if is_same(id, &item.id) { rest } else { items } }
        None => items,
    }
}

fn item(member: &Member) -> LedgerItem
    ensures { result ≡ as_item member.now }
{
    LedgerItem {
        id: member.id,
        birth: member.birth,
        last: member.last,
        until: member.until,
    }
}

fn keep(
    items: &mut Vec<LedgerItem>,
    settled: &mut Vec<bool>,
    member: Option<Member>,
) -> Result<(), AllocError>
    ensures items { OnOk result (items.new.items ≡ items.old.items ++ cons_option (option_map as_item member) []) }
    ensures settled { OnOk result
        (settled.new.items ≡ settled.old.items ++ cons_option (option_map {U = Bool} (λ m. m.settled) member) []) }
{
    if let Some(member) = member {
        items.push(item(&member))?;
        settled.push(member.settled)?;
    }
    Ok(())
}

/// What a merge of items and entries gives: the identities that are accepted, and how many entries are late.
#[derive(Drop)]
pub(crate) struct Merged {
    pub(crate) members: Members,
    pub(crate) late: usize,
}

/// Puts what becomes of items and entries behind members, and says how many entries are late.
pub(crate) fn merge(
    members: &mut Members,
    context: &Context,
    items: &[LedgerItem],
    entries: &[ReadEntry],
) -> Result<usize, AllocError>
    requires mergeable { AreMergeable context.now items.now entries.now }
    requires rise { IsRising (entries_of context.now.issuers.now context.now.ranges.now entries.now) }
    ensures { IfOk result (IsMergedBehind context.now items.now entries.now members.old.items.items members.old.settled.items members.new) }
{
    let mut late = 0;
    let mut items_left = items;
    let mut entries_left = entries;
    while let Some(id) = least(context.issuers, items_left, entries_left) {
        let old = first_item(items_left, &id);
        let (run, behind) = entries_left.split_at(run_length(context.issuers, entries_left, &id));
        let judged = judge(context, &id, &old, run);
        keep(&mut members.items, &mut members.settled, judged.member)?;
        late += judged.late;
        items_left = after_item(items_left, &id);
        entries_left = behind;
    }
    Ok(late)
}

/// No members, with room for so many.
pub(crate) fn no_members(alloc: Global, most: usize) -> Result<Members, AllocError>
    ensures items { IfOk result (λ m. m.items.items ≡ []) }
    ensures settled { IfOk result (λ m. m.settled.items ≡ []) }
{
    Ok(Members {
        items: Vec::with_capacity(alloc, most)?,
        settled: Vec::with_capacity(alloc, most)?,
    })
}

/// What becomes of items and entries, which are sorted.
pub(crate) fn merge_unsorted(
    alloc: Global,
    context: &Context,
    items: &[LedgerItem],
    entries: &mut [ReadEntry],
) -> Result<Merged, AllocError>
    requires mergeable { AreMergeable context.now items.now entries.old }
    ensures same { OnOk result (IsPermutation entries.old entries.new) }
    ensures merged { IfOk result (IsMergeOf context.now items.now entries.new) }
{
    let mut members = no_members(alloc, items.len().saturating_add(entries.len()))?;
    sort_entries(entries);
    let late = merge(&mut members, context, items, entries)?;
    Ok(Merged { members, late })
}

/// The identities accepted so far, ascending, where these entries are those that a job's ranges cover and whose issuers
/// it enrolls, and how many of these are late.
pub(crate) fn members<T: Threading>(
    threading: &T,
    alloc: Global,
    context: &Context,
    items: &[LedgerItem],
    entries: Vec<ReadEntry>,
) -> Result<Merged, AllocError>
    requires shared { T.shared threading.now }
    requires few { length context.now.parts.now < 256 }
    requires parts { All IsSearchable context.now.parts.now }
    requires ascend { IsStrictlySortedBy identity_cmp (map (λ i. i.id) items.now) }
    requires issuers { IsStrictlySortedBy octets_cmp context.now.issuers.now }
    requires placed { All (IsPlaced context.now.issuers.now context.now.ranges.now) entries.items }
    ensures members { (job : JobFacts)
        → entries_of context.now.issuers.now context.now.ranges.now entries.items
        ≡ filter_map (if_read job.ranges (enrolled job)) job.entries
        → IfOk result (λ m. AreMembers
        (members_in (ledger_fields context.now.parts.now items.now) job) m.members.items.items m.members.settled.items) }
    ensures late { IfOk result (λ m. m.late
        ≡ count_by (comes_late_in (ledger_fields context.now.parts.now items.now))
        (entries_of context.now.issuers.now context.now.ranges.now entries.items)) }
{
    let mut entries = entries;
    let merged = threading.merge(alloc, context, items, &mut entries)?;
    Ok(merged)
}
