//! Ranges from bytes, and as bytes, as parts, ledgers and jobs hold them.

ghost use Rattle.std.specs.Prelude.{◌≡◌, ◌++◌, length, flat_map, All, OnOk, IfOk};
ghost use Rattle.octets_core.specs.Layout.{mapped};
ghost use Rattle.octets_core.specs.Reading.{ReadsField, ReadsUnless};
ghost use Rattle.ident_core.specs.Coverage.{AreRanges};
ghost use Rattle.ident_core.specs.RangeLayout.{range, ranges as ranges_layout};
ghost use Rattle.ident_core.specs.RangeText.{range_text, RangeFits};

use crate::fault::RangesFault;
use crate::range::Range;
use octets_core::{
    Cursor, Field, Key32, LayoutFault, NoMemory, put_bytes, put_u64, read_key_after, read_u64,
};
use std::alloc::Global;

/// The bytes of a range: its log, and both ends.
pub const RANGE_BYTES: usize = 48;

/// Reads a range off a layout, behind the range of the previous log.
#[tactic(auto, unfolding(crate::specs::RangeLayout::range))]
pub fn read_range(cursor: &mut Cursor<'_>, previous: Option<Key32>) -> Result<Range, LayoutFault>
    ensures { ReadsField (λ x. x) (range previous) cursor.old cursor.new result }
{
    let log = read_key_after(cursor, Field::RangeLog, previous)?;
    let from = read_u64(cursor, Field::RangeFrom, 0, u64::MAX)?;
    let to = read_u64(cursor, Field::RangeTo, from, u64::MAX)?;
    Ok(Range { log, from, to })
}

/// Reads so many ranges off a layout. However great the count is, no more memory is asked for than the bytes that are
/// left could fill.
pub fn read_ranges(
    alloc: Global,
    cursor: &mut Cursor<'_>,
    count: u16,
) -> Result<Vec<Range>, RangesFault>
    ensures exact { ReadsUnless RangesFault.NoMemory (λ v. v.items)
        (mapped RangesFault.Layout (ranges_layout count)) cursor.old cursor.new result }
    ensures facts { IfOk result (λ v. AreRanges v.items × (length v.items ≡ count)) }
    ensures kept { cursor.new.bytes ≡ cursor.old.bytes }
{
    let room = (count as usize).min(cursor.left() / RANGE_BYTES);
    let mut ranges = Vec::with_capacity(alloc, room)?;
    let mut previous = None;
    for _ in 0..count {
        let range = read_range(cursor, previous)?;
        previous = Some(range.log);
        ranges.push(range)?;
    }
    Ok(ranges)
}

/// Appends the text of the range.
pub fn put_range(out: &mut Vec<u8>, range: &Range) -> Result<(), NoMemory>
    ensures text { OnOk result (out.new.items ≡ out.old.items ++ range_text range.now) }
    ensures fits { OnOk result (RangeFits range.now) }
{
    put_bytes(out, range.log.bytes())?;
    put_u64(out, range.from)?;
    put_u64(out, range.to)?;
    Ok(())
}

/// Appends the texts of the ranges, one after the other.
pub fn put_ranges(out: &mut Vec<u8>, ranges: &[Range]) -> Result<(), NoMemory>
    ensures text { OnOk result (out.new.items ≡ out.old.items ++ flat_map range_text ranges.now) }
    ensures fits { OnOk result (All RangeFits ranges.now) }
{
    for range in ranges {
        put_range(out, range)?;
    }
    Ok(())
}
