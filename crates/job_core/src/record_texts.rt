//! Records of a job whose bytes stand in memory, read off a cursor.

ghost use Rattle.std.specs.Prelude.{◌≡◌, ◌≤◌, IfOk};
ghost use Rattle.octets_core.specs.Reading.{ReadsField, octets, length_of_three};
ghost use Rattle.job_core.specs.JobLayout.{with_item, record_kind, range_item, crl_item, entry_item, next_item, opening};
ghost use Rattle.job_core.specs.Partial.{held_in};
ghost use Rattle.job_core.specs.Records.{item_shown, some_shown, with_next, ReadsRecord};

use crate::bounds::{Limits, What};
use crate::fault::JobFault;
use crate::partial::{Numbers, is_room};
use crate::records::{MAX_CRL, is_kind_after};
use ident_core::{Range, read_range};
use octets_core::{
    Cursor, Field, Key32, LayoutFault, Short, Why, read_key, read_magic, read_u32, read_u64,
};

/// A record as it stands in a job's bytes.
#[derive(Clone, Copy, Debug)]
pub enum RecordText<'a> {
    Range(Range),
    Crl {
        issuer: Key32,
        bytes: &'a [u8],
    },
    /// The log, and the leaf and the extra data that it gave (RFC 6962, 4.6).
    Entry {
        log: Key32,
        leaf: &'a [u8],
        extra: &'a [u8],
    },
}

/// The epoch and the moment, which stand before the records.
#[tactic(auto, unfolding(crate::specs::JobLayout::opening))]
pub fn read_opening(cursor: &mut Cursor<'_>) -> Result<(u64, u64), LayoutFault>
    ensures { ReadsField (λ o. o) opening cursor.old cursor.new result }
{
    read_magic(cursor, Field::JobMagic, b"CLUBJOB1")?;
    let epoch = read_u64(cursor, Field::JobEpoch, 0, u64::MAX)?;
    let moment = read_u64(cursor, Field::JobMoment, 0, u64::MAX)?;
    Ok((epoch, moment))
}

/// The kind of a record behind one of the previous kind.
#[tactic(auto, unfolding(crate::specs::JobLayout::record_kind, octets_core::specs::Layout::bytes_field))]
fn read_kind(cursor: &mut Cursor<'_>, previous: u8) -> Result<u8, LayoutFault>
    ensures exact { ReadsField (λ k. k) (record_kind previous) cursor.old cursor.new result }
    ensures known { IfOk result (λ k. k ≤ 3) }
{
    let at = cursor.at();
    match cursor.u8() {
        Ok(kind) if is_kind_after(previous, kind) => Ok(kind),
        Ok(_) => Err(LayoutFault::new(at, Field::RecordKind, Why::Value)),
        Err(Short) => Err(LayoutFault::new(at, Field::RecordKind, Why::Short)),
    }
}

/// So many bytes.
#[tactic(auto, unfolding(octets_core::specs::Layout::bytes_field))]
fn read_octets<'a>(
    cursor: &mut Cursor<'a>,
    field: Field,
    width: u32,
) -> Result<&'a [u8], LayoutFault>
    ensures { ReadsField (λ b. b.now) (octets field width) cursor.old cursor.new result }
{
    let at = cursor.at();
    match cursor.take(width as usize) {
        Ok(taken) => Ok(taken),
        Err(Short) => Err(LayoutFault::new(at, field, Why::Short)),
    }
}

/// A number of three bytes.
#[tactic(auto, unfolding(octets_core::specs::Reading::length_of_three, octets_core::specs::Layout::bytes_field))]
fn read_u24(cursor: &mut Cursor<'_>, field: Field) -> Result<u32, LayoutFault>
    ensures { ReadsField (λ n. n) (length_of_three field) cursor.old cursor.new result }
{
    let at = cursor.at();
    match cursor.u24() {
        Ok(number) => Ok(number),
        Err(Short) => Err(LayoutFault::new(at, field, Why::Short)),
    }
}

#[tactic(auto, unfolding(crate::specs::JobLayout::range_item))]
fn range_text<'a>(
    cursor: &mut Cursor<'a>,
    limits: &Limits,
    numbers: &mut Numbers,
) -> Result<RecordText<'a>, JobFault>
    ensures exact { ReadsRecord item_shown (range_item limits.now (held_in numbers.old)) cursor.old cursor.new result }
    ensures behind { IfOk result (λ x. held_in numbers.new ≡ with_item (held_in numbers.old) (item_shown x)) }
{
    if !is_room(limits.ranges, numbers.ranges) {
        return Err(JobFault::TooMany {
            what: What::Ranges,
            limit: limits.ranges,
        });
    }
    let range = read_range(cursor, numbers.log)?;
    numbers.kind = 1;
    numbers.log = Some(range.log);
    numbers.ranges += 1;
    Ok(RecordText::Range(range))
}

#[tactic(auto, unfolding(crate::specs::JobLayout::crl_item, crate::specs::JobLayout::crl))]
fn crl_text<'a>(
    cursor: &mut Cursor<'a>,
    limits: &Limits,
    numbers: &mut Numbers,
) -> Result<RecordText<'a>, JobFault>
    ensures exact { ReadsRecord item_shown (crl_item limits.now (held_in numbers.old)) cursor.old cursor.new result }
    ensures behind { IfOk result (λ x. held_in numbers.new ≡ with_item (held_in numbers.old) (item_shown x)) }
{
    if !is_room(limits.crls, numbers.crls) {
        return Err(JobFault::TooMany {
            what: What::Crls,
            limit: limits.crls,
        });
    }
    let issuer = read_key(cursor, Field::CrlIssuer)?;
    let width = read_u32(cursor, Field::CrlLength, 0, MAX_CRL)?;
    let bytes = read_octets(cursor, Field::CrlBytes, width)?;
    numbers.kind = 2;
    numbers.crls += 1;
    Ok(RecordText::Crl { issuer, bytes })
}

#[tactic(auto, unfolding(crate::specs::JobLayout::entry_item, crate::specs::JobLayout::entry))]
fn entry_text<'a>(
    cursor: &mut Cursor<'a>,
    limits: &Limits,
    numbers: &mut Numbers,
) -> Result<RecordText<'a>, JobFault>
    ensures exact { ReadsRecord item_shown (entry_item limits.now (held_in numbers.old)) cursor.old cursor.new result }
    ensures behind { IfOk result (λ x. held_in numbers.new ≡ with_item (held_in numbers.old) (item_shown x)) }
{
    if !is_room(limits.entries, numbers.entries) {
        return Err(JobFault::TooMany {
            what: What::Entries,
            limit: limits.entries,
        });
    }
    let log = read_key(cursor, Field::EntryLog)?;
    let leaf_width = read_u24(cursor, Field::EntryLeafLength)?;
    let leaf = read_octets(cursor, Field::EntryLeaf, leaf_width)?;
    let extra_width = read_u24(cursor, Field::EntryExtraLength)?;
    let extra = read_octets(cursor, Field::EntryExtra, extra_width)?;
    numbers.kind = 3;
    numbers.entries += 1;
    Ok(RecordText::Entry { log, leaf, extra })
}

/// The next record, or none where the records end.
#[tactic(auto, unfolding(crate::specs::JobLayout::next_item))]
pub fn read_record<'a>(
    cursor: &mut Cursor<'a>,
    limits: &Limits,
    numbers: &mut Numbers,
) -> Result<Option<RecordText<'a>>, JobFault>
    ensures exact { ReadsRecord some_shown (next_item limits.now (held_in numbers.old)) cursor.old cursor.new result }
    ensures behind { IfOk result (λ r. held_in numbers.new ≡ with_next (held_in numbers.old) (some_shown r)) }
{
    let text = match read_kind(cursor, numbers.kind)? {
        0 => return Ok(None),
        1 => range_text(cursor, limits, numbers),
        2 => crl_text(cursor, limits, numbers),
        _ => entry_text(cursor, limits, numbers),
    };
    match text {
        Ok(text) => Ok(Some(text)),
        Err(fault) => Err(fault),
    }
}
