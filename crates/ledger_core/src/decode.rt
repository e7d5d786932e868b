//! Ledgers from bytes.

ghost use Rattle.std.specs.Prelude.{◌≡◌, ◌≤◌, ◌-◌, ◌^◌, ℕ, [], length, map, is_none, Ok, IfOk, IfErr};
ghost use Rattle.std.specs.Int.{w64};
ghost use Rattle.octets_core.specs.Layout.{within};
ghost use Rattle.octets_core.specs.Reading.{ReadsField, GivesUnless, number, key};
ghost use Rattle.ident_core.specs.Coverage.{first_outside};
ghost use Rattle.ident_core.specs.declared.bounds.TheConstants.{MAX_SERIAL};
ghost use Rattle.ledger_core.specs.LedgerFields.{LedgerFields, part_fields, ledger_fields};
ghost use Rattle.ledger_core.specs.LedgerText.{IsText};
ghost use Rattle.ledger_core.specs.LedgerLayout.{tested, least_epoch, coverage_before, coverage, ledger_part};
ghost use Rattle.ledger_core.specs.LedgerLayout.{issuers as issuers_layout, ledger_parts, is_from, is_behind};
ghost use Rattle.ledger_core.specs.LedgerLayout.{last_place, until_field, date as date_layout, date_in, item};
ghost use Rattle.ledger_core.specs.LedgerLayout.{items as items_layout, body};
ghost use Rattle.ledger_core.specs.LedgerReading.{Reads, before, ledger_of_bytes, offset_in_ledger};
ghost use Rattle.ledger_core.specs.Fitting.{Fits};

use crate::encode::{ISSUER, ITEM, NONE};
use crate::fault::LedgerFault;
use crate::fields::{LedgerItem, LedgerPart};
use crate::ledger::Ledger;
use ident_core::{
    Identity, MAX_IDENTITIES, MAX_ISSUERS, MAX_PARTS, MAX_RANGES, MAX_SERIAL, Range, Serial,
    compare, read_ranges, shrinks,
};
use octets_core::{
    Cursor, Field, Key32, LayoutFault, Short, Why, read_digest, read_end, read_key, read_key_after,
    read_magic, read_u8, read_u16, read_u32, read_u64,
};
use std::alloc::Global;

fn issuers_of(alloc: Global, cursor: &mut Cursor<'_>, count: u32) -> Result<Vec<Key32>, LedgerFault>
    ensures { Reads (λ v. v.items) (issuers_layout count) cursor.old cursor.new result }
{
    let mut issuers = Vec::with_capacity(alloc, (count as usize).min(cursor.left() / ISSUER))?;
    let mut previous = None;
    for _ in 0..count {
        let issuer = read_key_after(cursor, Field::LedgerIssuer, previous)?;
        previous = Some(issuer);
        issuers.push(issuer)?;
    }
    Ok(issuers)
}

fn is_epoch_after(previous: Option<&LedgerPart>, epoch: u64) -> bool
    ensures { result ≡ within (least_epoch (before previous.entry)) (2 ^ 64 - 1) epoch }
{
    match previous {
        None => true,
        Some(previous) => previous.epoch < epoch,
    }
}

/// The epoch of a part, which is greater than that of the part before it.
#[tactic(auto, unfolding(octets_core::specs::Layout::number_field))]
fn epoch_of(cursor: &mut Cursor<'_>, previous: Option<&LedgerPart>) -> Result<u64, LayoutFault>
    ensures { ReadsField (λ n. n)
        (number Field.LedgerEpoch w64 (least_epoch (before previous.entry)) (2 ^ 64 - 1)) cursor.old cursor.new result }
{
    let at = cursor.at();
    match cursor.u64() {
        Ok(epoch) if is_epoch_after(previous, epoch) => Ok(epoch),
        Ok(_) => Err(LayoutFault::new(at, Field::LedgerEpoch, Why::Value)),
        Err(Short) => Err(LayoutFault::new(at, Field::LedgerEpoch, Why::Short)),
    }
}

fn covers_before(previous: Option<&LedgerPart>, ranges: &[Range]) -> bool
    ensures { result ≡ is_none (first_outside (coverage_before (before previous.entry)) ranges.now) }
{
    match previous {
        None => true,
        Some(previous) => shrinks(&previous.ranges, ranges).is_none(),
    }
}

/// No bytes: a part covers what the part before it covers.
#[tactic(auto, unfolding(octets_core::specs::Layout::bytes_field))]
fn read_coverage(
    cursor: &mut Cursor<'_>,
    previous: Option<&LedgerPart>,
    ranges: &[Range],
) -> Result<(), LayoutFault>
    ensures { ReadsField (λ x. []) (coverage (coverage_before (before previous.entry)) ranges.now) cursor.old cursor.new result }
{
    let at = cursor.at();
    if !covers_before(previous, ranges) {
        return Err(LayoutFault::new(at, Field::LedgerCoverage, Why::Value));
    }
    Ok(())
}

#[tactic(auto, unfolding(crate::specs::LedgerLayout::ledger_part))]
fn part_of(
    alloc: Global,
    cursor: &mut Cursor<'_>,
    previous: Option<&LedgerPart>,
) -> Result<LedgerPart, LedgerFault>
    ensures { Reads part_fields (ledger_part (before previous.entry)) cursor.old cursor.new result }
{
    let epoch = epoch_of(cursor, previous)?;
    let trailer = read_key(cursor, Field::LedgerPartTrailer)?;
    let count = read_u16(cursor, Field::LedgerRanges, 0, MAX_RANGES as u16)?;
    let ranges = read_ranges(alloc, cursor, count)?;
    read_coverage(cursor, previous, &ranges)?;
    let enrolled = read_u32(cursor, Field::LedgerIssuers, 0, MAX_ISSUERS as u32)?;
    let issuers = issuers_of(alloc, cursor, enrolled)?;
    Ok(LedgerPart {
        epoch,
        trailer,
        ranges,
        issuers,
    })
}

fn parts_of(
    alloc: Global,
    cursor: &mut Cursor<'_>,
    count: u8,
) -> Result<Vec<LedgerPart>, LedgerFault>
    ensures { Reads (λ v. map part_fields v.items) (ledger_parts count) cursor.old cursor.new result }
{
    let mut parts = Vec::with_capacity(alloc, count as usize)?;
    for _ in 0..count {
        let part = part_of(alloc, cursor, parts.last())?;
        parts.push(part)?;
    }
    Ok(parts)
}

fn is_issuer_from(previous: &Option<Identity>, issuer: &Key32) -> bool
    ensures { result ≡ is_from previous.now issuer.now }
{
    match previous {
        None => true,
        Some(previous) => !issuer.cmp(&previous.issuer).is_lt(),
    }
}

/// The issuer of an identity, which is not less than that of the identity before it.
#[tactic(auto, unfolding(octets_core::specs::Layout::bytes_field))]
fn issuer_of(cursor: &mut Cursor<'_>, previous: &Option<Identity>) -> Result<Key32, LayoutFault>
    ensures { ReadsField (λ x. x) (key Field.IdentityIssuer (is_from previous.now)) cursor.old cursor.new result }
{
    let at = cursor.at();
    let issuer = read_key(cursor, Field::IdentityIssuer)?;
    if !is_issuer_from(previous, &issuer) {
        return Err(LayoutFault::new(at, Field::IdentityIssuer, Why::Value));
    }
    Ok(issuer)
}

fn is_identity_after(previous: &Option<Identity>, id: &Identity) -> bool
    ensures { result ≡ is_behind previous.now id.now }
{
    match previous {
        None => true,
        Some(previous) => compare(previous, id).is_lt(),
    }
}

/// The serial of an identity, which is greater than the identity before it.
#[tactic(auto, unfolding(octets_core::specs::Layout::bytes_field))]
fn serial_of(
    cursor: &mut Cursor<'_>,
    previous: &Option<Identity>,
    issuer: Key32,
    width: u8,
) -> Result<Serial, LayoutFault>
    requires some { 1 ≤ width }
    requires few { width ≤ MAX_SERIAL }
    ensures { ReadsField (λ x. x) (tested Field.IdentitySerial width
        (λ serial. is_behind previous.now (record { issuer = issuer; serial = serial }))) cursor.old cursor.new result }
{
    let at = cursor.at();
    let Ok(taken) = cursor.take(width as usize) else {
        return Err(LayoutFault::new(at, Field::IdentitySerial, Why::Short));
    };
    match Serial::new(taken) {
        Ok(serial) if is_identity_after(previous, &Identity { issuer, serial }) => Ok(serial),
        _ => Err(LayoutFault::new(at, Field::IdentitySerial, Why::Value)),
    }
}

/// The last of an identity: none, or the place of a part from the birth on.
#[tactic(auto, unfolding(octets_core::specs::Layout::bytes_field, crate::specs::LedgerLayout::last_place))]
fn last_of(cursor: &mut Cursor<'_>, parts: u8, birth: u8) -> Result<Option<u8>, LayoutFault>
    requires { 1 ≤ parts }
    ensures { ReadsField (λ x. x) (last_place parts birth) cursor.old cursor.new result }
{
    let at = cursor.at();
    match cursor.u8() {
        Ok(place) if place == NONE => Ok(None),
        Ok(place) if birth <= place && place <= parts - 1 => Ok(Some(place)),
        Ok(_) => Err(LayoutFault::new(at, Field::IdentityLast, Why::Value)),
        Err(Short) => Err(LayoutFault::new(at, Field::IdentityLast, Why::Short)),
    }
}

/// A number in two's complement.
#[tactic(auto, unfolding(crate::specs::LedgerLayout::until_field))]
fn until_of(cursor: &mut Cursor<'_>) -> Result<i64, LayoutFault>
    ensures { ReadsField (λ x. x) until_field cursor.old cursor.new result }
{
    let bits = read_u64(cursor, Field::IdentityUntil, 0, u64::MAX)?;
    Ok(bits.cast_signed())
}

#[tactic(auto, unfolding(crate::specs::LedgerLayout::date, crate::specs::LedgerLayout::some_until))]
fn date_of(cursor: &mut Cursor<'_>) -> Result<Option<i64>, LayoutFault>
    ensures { ReadsField (λ x. x) date_layout cursor.old cursor.new result }
{
    let dated = read_u8(cursor, Field::IdentityDated, 0, 1)?;
    if dated == 0 {
        return Ok(None);
    }
    Ok(Some(until_of(cursor)?))
}

/// The date of an identity, in a ledger of this version.
fn date_in_version(cursor: &mut Cursor<'_>, version: u8) -> Result<Option<i64>, LayoutFault>
    ensures { ReadsField (λ x. x) (date_in version) cursor.old cursor.new result }
{
    if version == 1 {
        return Ok(None);
    }
    date_of(cursor)
}

#[tactic(auto, unfolding(crate::specs::LedgerLayout::item))]
fn item_of(
    cursor: &mut Cursor<'_>,
    version: u8,
    parts: u8,
    previous: &Option<Identity>,
) -> Result<LedgerItem, LayoutFault>
    requires { 1 ≤ parts }
    ensures { ReadsField (λ x. x) (item version parts previous.now) cursor.old cursor.new result }
{
    let issuer = issuer_of(cursor, previous)?;
    let width = read_u8(cursor, Field::IdentityLength, 1, MAX_SERIAL as u8)?;
    let serial = serial_of(cursor, previous, issuer, width)?;
    let birth = read_u8(cursor, Field::IdentityBirth, 0, parts - 1)?;
    let last = last_of(cursor, parts, birth)?;
    let until = date_in_version(cursor, version)?;
    let id = Identity { issuer, serial };
    Ok(LedgerItem {
        id,
        birth,
        last,
        until,
    })
}

fn items_of(
    alloc: Global,
    cursor: &mut Cursor<'_>,
    version: u8,
    parts: u8,
    count: u32,
) -> Result<Vec<LedgerItem>, LedgerFault>
    requires { 1 ≤ parts }
    ensures { Reads (λ v. v.items) (items_layout version parts count) cursor.old cursor.new result }
{
    let mut items = Vec::with_capacity(alloc, (count as usize).min(cursor.left() / ITEM))?;
    let mut previous = None;
    for _ in 0..count {
        let item = item_of(cursor, version, parts, &previous)?;
        previous = Some(item.id);
        items.push(item)?;
    }
    Ok(items)
}

#[tactic(auto, unfolding(crate::specs::LedgerLayout::body))]
fn body_of(
    alloc: Global,
    cursor: &mut Cursor<'_>,
) -> Result<(Vec<LedgerPart>, Vec<LedgerItem>), LedgerFault>
    ensures { Reads (λ x. ledger_fields x.0.items x.1.items) body cursor.old cursor.new result }
{
    read_magic(cursor, Field::LedgerMagic, b"CLUBLEDG")?;
    let version = read_u8(cursor, Field::LedgerVersion, 1, 2)?;
    let count = read_u8(cursor, Field::LedgerParts, 1, MAX_PARTS as u8)?;
    let parts = parts_of(alloc, cursor, count)?;
    let accepted = read_u32(cursor, Field::LedgerIdentities, 0, MAX_IDENTITIES as u32)?;
    let items = items_of(alloc, cursor, version, count, accepted)?;
    Ok((parts, items))
}

#[tactic(auto, unfolding(crate::specs::LedgerLayout::ledger, crate::specs::LedgerLayout::digested))]
fn ledger_in(alloc: Global, bytes: &[u8]) -> Result<Ledger, LedgerFault>
    ensures { GivesUnless LedgerFault.NoMemory (λ l. l) result (ledger_of_bytes bytes.now) }
{
    let mut cursor = Cursor::new(bytes);
    let (parts, items) = body_of(alloc, &mut cursor)?;
    read_digest(&mut cursor, Field::LedgerDigest)?;
    read_end(&mut cursor)?;
    Ok(Ledger::new(parts, items))
}

/// The ledger of the bytes, all of them. Versions 1 and 2 are read; in version 1 no identity has a date. An `Err` is
/// the first field that is short or fails its test, with its offset; a byte behind the digest is a fault of `end`.
/// However great a count is, no more memory is asked for than the bytes behind it could fill.
pub fn decode_ledger(alloc: Global, bytes: &[u8]) -> Result<Ledger, LedgerFault>
    // Which ledger or fault it is.
    ensures exact { GivesUnless LedgerFault.NoMemory (λ l. l) result (ledger_of_bytes bytes.now) }
    // What is read is spelled so, each byte of it, in one of the versions.
    ensures spelled { IfOk result (λ l. IsText l bytes.now) }
    ensures fits { IfOk result (λ l. Fits l) }
    // A text of a ledger, in either version, is read as it, unless memory is wanted.
    ensures only { (l : LedgerFields) → Fits l → IsText l bytes.now → GivesUnless LedgerFault.NoMemory (λ l. l) result (Ok l) }
    ensures at { IfErr result (λ e. offset_in_ledger e ≤ length bytes.now) }
{
    ledger_in(alloc, bytes)
}
