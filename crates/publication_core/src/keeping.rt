ghost use Rattle.std.specs.Prelude.{◌≡◌, ◌&&◌, IfOk, map, filter, is_some, count_by, not};
ghost use Rattle.universe_core.specs.Jobs.{is_stale};
ghost use Rattle.universe_core.specs.Rebases.{is_lasting, is_kept_item, rebased_item};
ghost use Rattle.publication_core.specs.LeftOut.{cut_of};

use crate::left_out::LeftOut;
use ledger_core::LedgerItem;
use std::alloc::{AllocError, Global};

/// Whether a date, in seconds, lies before a moment, in milliseconds.
fn is_past(until: Option<i64>, moment: u64) -> bool
    ensures { result ≡ is_stale moment until }
{
    match until {
        Some(seconds) => 1000 * i128::from(seconds) < i128::from(moment),
        None => false,
    }
}

fn lasts(item: &LedgerItem, moment: u64) -> bool
    ensures { result ≡ is_lasting moment item.now }
{
    !is_past(item.until, moment)
}

fn stays(item: &LedgerItem, moment: u64, left_out: &LeftOut) -> bool
    ensures { result ≡ (is_lasting moment item.now && is_kept_item (cut_of left_out.now) item.now) }
{
    lasts(item, moment) && left_out.keeps(&item.id)
}

/// The item in a chain of one part.
fn renewed(item: &LedgerItem) -> LedgerItem
    ensures { result ≡ rebased_item item.now }
{
    LedgerItem {
        id: item.id,
        birth: 0,
        last: item.last.map(|_| 0),
        until: item.until,
    }
}

fn count_kept(items: &[LedgerItem], moment: u64, left_out: &LeftOut) -> usize
    ensures { result ≡ count_by (λ i. is_lasting moment i && is_kept_item (cut_of left_out.now) i) items.now }
{
    items
        .iter()
        .filter(|item| stays(item, moment, left_out))
        .count()
}

/// How many items are left out.
pub(crate) fn count_left(items: &[LedgerItem], left_out: &LeftOut) -> usize
    ensures { result ≡ count_by (λ i. not (is_kept_item (cut_of left_out.now) i)) items.now }
{
    items
        .iter()
        .filter(|item| !left_out.keeps(&item.id))
        .count()
}

/// The items that have not expired and aren't left out, as a chain of one part has them.
pub(crate) fn kept(
    alloc: Global,
    items: &[LedgerItem],
    moment: u64,
    left_out: &LeftOut,
) -> Result<Vec<LedgerItem>, AllocError>
    ensures { IfOk result (λ out. out.items
        ≡ map rebased_item (filter (λ i. is_lasting moment i && is_kept_item (cut_of left_out.now) i) items.now)) }
{
    let mut out = Vec::with_capacity(alloc, count_kept(items, moment, left_out))?;
    for item in items {
        if stays(item, moment, left_out) {
            out.push(renewed(item))?;
        }
    }
    Ok(out)
}

/// Beside each item whether it has a last.
pub(crate) fn flags(alloc: Global, items: &[LedgerItem]) -> Result<Vec<bool>, AllocError>
    ensures { IfOk result (λ out. out.items ≡ map (λ i. is_some i.last) items.now) }
{
    items.iter().map(|item| item.last.is_some()).collect(alloc)
}
