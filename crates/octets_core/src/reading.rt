//! The fields that this project's layouts share, read off a cursor. An `Err` is the layout's fault: the field that is
//! short or fails its test, with the offset of its first byte. After it the cursor still holds the same bytes, so that
//! `passed`, `left` and further reads are about the same file; where in them it stands is not said.

ghost use Rattle.std.specs.Prelude.{◌≤◌, IfOk};
ghost use Rattle.std.specs.Int.{w8, w16, w32, w64};
ghost use Rattle.octets_core.specs.Linked.{is_after as is_key_after};
ghost use Rattle.octets_core.specs.Reading.{ReadsField, number, key, any_key, magic};
ghost use Rattle.octets_core.specs.Reading.{digest, end as end_of};

use crate::cursor::{Cursor, Short};
use crate::fault::{LayoutFault, Why};
use crate::field::Field;
use crate::key::{Key32, is_after, key_of};
use sha2::{Digest, Sha256};

/// A number of one byte, from `low` to `high`.
#[tactic(auto, unfolding(crate::specs::Layout::number_field))]
pub fn read_u8(cursor: &mut Cursor<'_>, field: Field, low: u8, high: u8) -> Result<u8, LayoutFault>
    ensures exact { ReadsField (λ x. x) (number field w8 low high) cursor.old cursor.new result }
    ensures bounds { IfOk result (λ n. (low ≤ n) × (n ≤ high)) }
{
    let at = cursor.at();
    match cursor.u8() {
        Ok(n) if low <= n && n <= high => Ok(n),
        Ok(_) => Err(LayoutFault::new(at, field, Why::Value)),
        Err(Short) => Err(LayoutFault::new(at, field, Why::Short)),
    }
}

/// A number of two bytes, from `low` to `high`.
#[tactic(auto, unfolding(crate::specs::Layout::number_field))]
pub fn read_u16(
    cursor: &mut Cursor<'_>,
    field: Field,
    low: u16,
    high: u16,
) -> Result<u16, LayoutFault>
    ensures exact { ReadsField (λ x. x) (number field w16 low high) cursor.old cursor.new result }
    ensures bounds { IfOk result (λ n. (low ≤ n) × (n ≤ high)) }
{
    let at = cursor.at();
    match cursor.u16() {
        Ok(n) if low <= n && n <= high => Ok(n),
        Ok(_) => Err(LayoutFault::new(at, field, Why::Value)),
        Err(Short) => Err(LayoutFault::new(at, field, Why::Short)),
    }
}

/// A number of four bytes, from `low` to `high`.
#[tactic(auto, unfolding(crate::specs::Layout::number_field))]
pub fn read_u32(
    cursor: &mut Cursor<'_>,
    field: Field,
    low: u32,
    high: u32,
) -> Result<u32, LayoutFault>
    ensures exact { ReadsField (λ x. x) (number field w32 low high) cursor.old cursor.new result }
    ensures bounds { IfOk result (λ n. (low ≤ n) × (n ≤ high)) }
{
    let at = cursor.at();
    match cursor.u32() {
        Ok(n) if low <= n && n <= high => Ok(n),
        Ok(_) => Err(LayoutFault::new(at, field, Why::Value)),
        Err(Short) => Err(LayoutFault::new(at, field, Why::Short)),
    }
}

/// A number of eight bytes, from `low` to `high`.
#[tactic(auto, unfolding(crate::specs::Layout::number_field))]
pub fn read_u64(
    cursor: &mut Cursor<'_>,
    field: Field,
    low: u64,
    high: u64,
) -> Result<u64, LayoutFault>
    ensures exact { ReadsField (λ x. x) (number field w64 low high) cursor.old cursor.new result }
    ensures bounds { IfOk result (λ n. (low ≤ n) × (n ≤ high)) }
{
    let at = cursor.at();
    match cursor.u64() {
        Ok(n) if low <= n && n <= high => Ok(n),
        Ok(_) => Err(LayoutFault::new(at, field, Why::Value)),
        Err(Short) => Err(LayoutFault::new(at, field, Why::Short)),
    }
}

/// A key of 32 bytes.
#[tactic(auto, unfolding(crate::specs::Layout::bytes_field))]
pub fn read_key(cursor: &mut Cursor<'_>, field: Field) -> Result<Key32, LayoutFault>
    ensures { ReadsField (λ x. x) (key field any_key) cursor.old cursor.new result }
{
    let at = cursor.at();
    match cursor.take(32) {
        Ok(taken) => Ok(key_of(taken)),
        Err(Short) => Err(LayoutFault::new(at, field, Why::Short)),
    }
}

/// A key above the one before it, if there is one.
#[tactic(auto, unfolding(crate::specs::Layout::bytes_field))]
pub fn read_key_after(
    cursor: &mut Cursor<'_>,
    field: Field,
    previous: Option<Key32>,
) -> Result<Key32, LayoutFault>
    ensures { ReadsField (λ x. x) (key field (is_key_after previous)) cursor.old cursor.new result }
{
    let at = cursor.at();
    let key = read_key(cursor, field)?;
    if !is_after(previous, &key) {
        return Err(LayoutFault::new(at, field, Why::Value));
    }
    Ok(key)
}

/// The eight bytes that a layout begins with.
#[tactic(auto, unfolding(crate::specs::Layout::bytes_field))]
pub fn read_magic(cursor: &mut Cursor<'_>, field: Field, text: &[u8; 8]) -> Result<(), LayoutFault>
    ensures { ReadsField (λ x. text.now) (magic field text.now) cursor.old cursor.new result }
{
    let at = cursor.at();
    let Ok(taken) = cursor.take(8) else {
        return Err(LayoutFault::new(at, field, Why::Short));
    };
    if text.as_slice() != taken {
        return Err(LayoutFault::new(at, field, Why::Value));
    }
    Ok(())
}

/// The SHA-256 (FIPS 180-4) of all bytes that the cursor has passed.
#[tactic(auto, unfolding(crate::specs::Layout::bytes_field, crate::specs::Layout::sum_field))]
pub fn read_digest(cursor: &mut Cursor<'_>, field: Field) -> Result<Key32, LayoutFault>
    ensures { ReadsField (λ x. x) (digest field) cursor.old cursor.new result }
{
    let at = cursor.at();
    let passed = cursor.passed();
    let Ok(taken) = cursor.take(32) else {
        return Err(LayoutFault::new(at, field, Why::Short));
    };
    let sum = Sha256::digest(passed);
    if sum.as_slice() != taken {
        return Err(LayoutFault::new(at, field, Why::Digest));
    }
    Ok(key_of(taken))
}

/// The end of a whole file: no byte is left.
pub fn read_end(cursor: &mut Cursor<'_>) -> Result<(), LayoutFault>
    ensures { ReadsField (λ x. x) end_of cursor.old cursor.new result }
{
    if cursor.left() > 0 {
        return Err(LayoutFault::new(cursor.at(), Field::End, Why::Value));
    }
    Ok(())
}
