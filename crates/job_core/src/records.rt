//! Records of a job, read one by one off a feed.

ghost use Rattle.std.specs.Prelude.{◌≡◌, ◌+◌, ◌^◌, ◌≤◌, ◌<◌, true, IfOk, IfSome, OnOk};
ghost use Rattle.outside_core.specs.Standing.{place_of};
ghost use Rattle.ident_core.specs.RangeLayout.{range};
ghost use Rattle.job_core.specs.JobLayout.{fielded, with_item, is_kind, record_kind, crl, entry, opening};
ghost use Rattle.job_core.specs.JobLayout.{range_item, crl_item, entry_item, item_of, next_item};
ghost use Rattle.job_core.specs.JobText.{crl_held, entry_held};
ghost use Rattle.job_core.specs.Partial.{held_in};
ghost use Rattle.job_core.specs.Records.{item_of_record, some_record};
ghost use Rattle.job_core.specs.Pulling.{Fetches};

use crate::bounds::{Limits, What};
use crate::fault::JobFault;
use crate::fetch::{
    fetch, fetch_key, fetch_key_after, fetch_magic, fetch_octets, fetch_u24, fetch_u32, fetch_u64,
    wrong,
};
use crate::partial::{Numbers, is_room};
use crate::raw::{RawCrl, RawEntry};
use ident_core::Range;
use octets_core::{Field, Key32, Why};
use outside_core::{Depot, Feed};
use std::alloc::Global;

/// The most bytes of a CRL.
pub const MAX_CRL: u32 = 67_108_864;

/// A record that was read. An entry stands where the reader was told to put it, so that one's memory serves the next.
#[derive(Debug, Drop)]
pub enum Item {
    Range(Range),
    Crl(RawCrl),
    Entry,
}

/// Whether a record of a kind may stand behind one of the previous kind.
pub fn is_kind_after(previous: u8, kind: u8) -> bool
    ensures is { result ≡ is_kind previous kind }
    ensures known { result ≡ true → kind ≤ 3 }
{
    kind == 0 || (previous <= kind && kind <= 3)
}

/// The kind of a record behind one of the previous kind.
fn fetch_kind<D: Depot>(feed: &mut Feed<'_, D>, previous: u8) -> Result<u8, JobFault>
    ensures exact { Fetches D.Depot (λ k. k) (fielded (record_kind previous)) feed.old feed.new result }
    ensures near { place_of feed.new ≤ place_of feed.old + 1 }
    ensures known { IfOk result (λ k. k ≤ 3) }
    ensures further { OnOk result (place_of feed.old < place_of feed.new) }
{
    let at = feed.at();
    let mut out = [0u8; 1];
    fetch(feed, Field::RecordKind, &mut out)?;
    let kind = u8::from_be_bytes(out);
    if !is_kind_after(previous, kind) {
        return Err(wrong(at, Field::RecordKind, Why::Value));
    }
    Ok(kind)
}

/// A range behind the range of the previous log.
fn fetch_range<D: Depot>(feed: &mut Feed<'_, D>, previous: Option<Key32>) -> Result<Range, JobFault>
    ensures exact { Fetches D.Depot (λ r. r) (fielded (range previous)) feed.old feed.new result }
    ensures near { place_of feed.new ≤ place_of feed.old + 48 }
{
    let log = fetch_key_after(feed, Field::RangeLog, previous)?;
    let from = fetch_u64(feed, Field::RangeFrom, 0)?;
    let to = fetch_u64(feed, Field::RangeTo, from)?;
    Ok(Range { log, from, to })
}

/// The CRL behind the kind of its record.
fn fetch_crl<D: Depot>(alloc: Global, feed: &mut Feed<'_, D>) -> Result<RawCrl, JobFault>
    ensures exact { Fetches D.Depot crl_held (fielded crl) feed.old feed.new result }
    ensures near { place_of feed.new ≤ place_of feed.old + 2 ^ 26 + 36 }
{
    let issuer = fetch_key(feed, Field::CrlIssuer)?;
    let width = fetch_u32(feed, Field::CrlLength, MAX_CRL)?;
    let mut bytes = Vec::new(alloc);
    fetch_octets(feed, Field::CrlBytes, width, &mut bytes)?;
    Ok(RawCrl { issuer, bytes })
}

/// The entry behind the kind of its record.
fn fetch_entry<D: Depot>(feed: &mut Feed<'_, D>, into: &mut RawEntry) -> Result<(), JobFault>
    ensures exact { Fetches D.Depot (λ u. entry_held into.new) (fielded entry) feed.old feed.new result }
    ensures near { place_of feed.new ≤ place_of feed.old + 2 ^ 25 + 38 }
{
    into.log = fetch_key(feed, Field::EntryLog)?;
    let leaf_width = fetch_u24(feed, Field::EntryLeafLength)?;
    fetch_octets(feed, Field::EntryLeaf, leaf_width, &mut into.leaf)?;
    let extra_width = fetch_u24(feed, Field::EntryExtraLength)?;
    fetch_octets(feed, Field::EntryExtra, extra_width, &mut into.extra)?;
    Ok(())
}

/// The epoch and the moment, which stand before the records.
pub fn fetch_opening<D: Depot>(feed: &mut Feed<'_, D>) -> Result<(u64, u64), JobFault>
    ensures exact { Fetches D.Depot (λ o. o) (fielded opening) feed.old feed.new result }
    ensures near { place_of feed.new ≤ place_of feed.old + 24 }
{
    fetch_magic(feed, Field::JobMagic, b"CLUBJOB1")?;
    let epoch = fetch_u64(feed, Field::JobEpoch, 0)?;
    let moment = fetch_u64(feed, Field::JobMoment, 0)?;
    Ok((epoch, moment))
}

fn range_from<D: Depot>(
    numbers: &mut Numbers,
    feed: &mut Feed<'_, D>,
    limits: &Limits,
) -> Result<Item, JobFault>
    ensures exact { (e : RawEntry)
        → Fetches D.Depot (item_of_record e) (range_item limits.now (held_in numbers.old)) feed.old feed.new result }
    ensures near { place_of feed.new ≤ place_of feed.old + 2 ^ 27 }
    ensures behind { (e : RawEntry) → IfOk result (λ x. held_in numbers.new ≡ with_item (held_in numbers.old) (item_of_record e x)) }
{
    if !is_room(limits.ranges, numbers.ranges) {
        return Err(JobFault::TooMany {
            what: What::Ranges,
            limit: limits.ranges,
        });
    }
    let range = fetch_range(feed, numbers.log)?;
    numbers.kind = 1;
    numbers.log = Some(range.log);
    numbers.ranges += 1;
    Ok(Item::Range(range))
}

fn crl_from<D: Depot>(
    alloc: Global,
    numbers: &mut Numbers,
    feed: &mut Feed<'_, D>,
    limits: &Limits,
) -> Result<Item, JobFault>
    ensures exact { (e : RawEntry)
        → Fetches D.Depot (item_of_record e) (crl_item limits.now (held_in numbers.old)) feed.old feed.new result }
    ensures near { place_of feed.new ≤ place_of feed.old + 2 ^ 27 }
    ensures behind { (e : RawEntry) → IfOk result (λ x. held_in numbers.new ≡ with_item (held_in numbers.old) (item_of_record e x)) }
{
    if !is_room(limits.crls, numbers.crls) {
        return Err(JobFault::TooMany {
            what: What::Crls,
            limit: limits.crls,
        });
    }
    let crl = fetch_crl(alloc, feed)?;
    numbers.kind = 2;
    numbers.crls += 1;
    Ok(Item::Crl(crl))
}

fn entry_from<D: Depot>(
    numbers: &mut Numbers,
    feed: &mut Feed<'_, D>,
    limits: &Limits,
    into: &mut RawEntry,
) -> Result<Item, JobFault>
    ensures exact { Fetches D.Depot (item_of_record into.new) (entry_item limits.now (held_in numbers.old)) feed.old feed.new result }
    ensures near { place_of feed.new ≤ place_of feed.old + 2 ^ 27 }
    ensures behind { IfOk result (λ x. held_in numbers.new ≡ with_item (held_in numbers.old) (item_of_record into.new x)) }
{
    if !is_room(limits.entries, numbers.entries) {
        return Err(JobFault::TooMany {
            what: What::Entries,
            limit: limits.entries,
        });
    }
    fetch_entry(feed, into)?;
    numbers.kind = 3;
    numbers.entries += 1;
    Ok(Item::Entry)
}

fn item_from<D: Depot>(
    alloc: Global,
    numbers: &mut Numbers,
    feed: &mut Feed<'_, D>,
    limits: &Limits,
    into: &mut RawEntry,
    kind: u8,
) -> Result<Item, JobFault>
    ensures exact { Fetches D.Depot (item_of_record into.new) (item_of kind limits.now (held_in numbers.old)) feed.old feed.new result }
    ensures near { place_of feed.new ≤ place_of feed.old + 2 ^ 27 }
    ensures behind { IfOk result (λ x. held_in numbers.new ≡ with_item (held_in numbers.old) (item_of_record into.new x)) }
{
    match kind {
        1 => range_from(numbers, feed, limits),
        2 => crl_from(alloc, numbers, feed, limits),
        _ => entry_from(numbers, feed, limits, into),
    }
}

/// The next record, or none where the job ends. An entry is put in place of the one that is passed, in its memory.
pub fn next_item_from<D: Depot>(
    alloc: Global,
    numbers: &mut Numbers,
    feed: &mut Feed<'_, D>,
    limits: &Limits,
    into: &mut RawEntry,
) -> Result<Option<Item>, JobFault>
    ensures exact { Fetches D.Depot (some_record into.new) (next_item limits.now (held_in numbers.old)) feed.old feed.new result }
    ensures near { place_of feed.new ≤ place_of feed.old + 2 ^ 27 + 1 }
    ensures behind { IfOk result (λ x.
        IfSome x (λ taken. held_in numbers.new ≡ with_item (held_in numbers.old) (item_of_record into.new taken))) }
    ensures further { OnOk result (place_of feed.old < place_of feed.new) }
{
    let kind = fetch_kind(feed, numbers.kind)?;
    if kind == 0 {
        return Ok(None);
    }
    let item = item_from(alloc, numbers, feed, limits, into, kind)?;
    Ok(Some(item))
}
