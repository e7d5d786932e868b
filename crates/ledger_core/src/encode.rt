//! Ledgers as bytes.

ghost use Rattle.std.specs.Prelude.{◌≡◌, ◌≤◌, ◌+◌, ◌*◌, ◌++◌, length, map, flat_map, All, Ok, OnOk, IfOk};
ghost use Rattle.std.specs.Prelude.{IfSome};
ghost use Rattle.std.specs.Int.{w64};
ghost use Rattle.std.specs.Int.RustNames.{FitsSigned};
ghost use Rattle.ident_core.specs.declared.bounds.TheConstants.{MAX_RANGES, MAX_ISSUERS, MAX_PARTS};
ghost use Rattle.ident_core.specs.declared.layout.TheConstants.{RANGE_BYTES};
ghost use Rattle.ledger_core.specs.declared.encode.TheConstants.{PART, ISSUER};
ghost use Rattle.ledger_core.specs.LedgerFields.{part_fields};
ghost use Rattle.ledger_core.specs.LedgerText.{last_number, part_text, date_text, item_text, head_text};
ghost use Rattle.ledger_core.specs.LedgerText.{body_text, ledger_text};
ghost use Rattle.ledger_core.specs.LedgerLayout.{ledger as layout};
ghost use Rattle.ledger_core.specs.Fitting.{IsKey, IsSmall, PartFits, ItemFits, Fits};

use crate::fields::{LedgerItem, LedgerPart};
use crate::ledger::Ledger;
use ident_core::{MAX_SERIAL, RANGE_BYTES, put_ranges};
use octets_core::{Key32, NoMemory, put_bytes, put_u8, put_u16, put_u32, put_u64};
use rayon::prelude::*;
use sha2::{Digest, Sha256};
use std::alloc::Global;
use std::thread::Threads;

/// The bytes before the identities, in a ledger without parts.
const HEAD: usize = 14;

/// The bytes of a ledger with neither parts nor identities.
const FRAME: usize = HEAD + 32;

/// The bytes of a part with neither ranges nor issuers.
const PART: usize = 46;

/// The bytes of an issuer.
pub(crate) const ISSUER: usize = 32;

/// The bytes of an identity without its serial and its date.
pub(crate) const ITEM: usize = 35;

/// The bytes of an identity with the longest serial and a date.
const LONGEST_ITEM: usize = ITEM + MAX_SERIAL + 9;

/// The identities of a piece of text: about 2 MB.
const PIECE_ITEMS: usize = 32_768;

/// The number that stands for no last place.
pub(crate) const NONE: u8 = 255;

fn part_len(part: &LedgerPart) -> usize
    requires { IsSmall (part_fields part.now) }
    ensures { result ≤ PART + RANGE_BYTES * MAX_RANGES + ISSUER * MAX_ISSUERS }
{
    PART + RANGE_BYTES * part.ranges.len() + ISSUER * part.issuers.len()
}

fn parts_len(parts: &[LedgerPart]) -> usize
    requires few { length parts.now ≤ MAX_PARTS }
    requires small { All (λ p. IsSmall (part_fields p)) parts.now }
    ensures { result ≤ length parts.now * (PART + RANGE_BYTES * MAX_RANGES + ISSUER * MAX_ISSUERS) }
{
    let mut total = 0;
    for part in parts {
        total += part_len(part);
    }
    total
}

fn put_issuer(out: &mut Vec<u8>, issuer: &Key32) -> Result<(), NoMemory>
    ensures text { OnOk result (out.new.items ≡ out.old.items ++ issuer.now) }
    ensures fits { OnOk result (IsKey issuer.now) }
{
    put_bytes(out, issuer.bytes())
}

fn put_issuers(out: &mut Vec<u8>, issuers: &[Key32]) -> Result<(), NoMemory>
    ensures text { OnOk result (out.new.items ≡ out.old.items ++ flat_map (λ issuer. issuer) issuers.now) }
    ensures fits { OnOk result (All IsKey issuers.now) }
{
    for issuer in issuers {
        put_issuer(out, issuer)?;
    }
    Ok(())
}

#[tactic(auto, unfolding(crate::specs::LedgerText::part_text))]
fn put_part(out: &mut Vec<u8>, part: &LedgerPart) -> Result<(), NoMemory>
    requires { IsSmall (part_fields part.now) }
    ensures text { OnOk result (out.new.items ≡ out.old.items ++ part_text (part_fields part.now)) }
    ensures fits { OnOk result (PartFits (part_fields part.now)) }
{
    put_u64(out, part.epoch)?;
    put_bytes(out, part.trailer.bytes())?;
    put_u16(out, part.ranges.len() as u16)?;
    put_ranges(out, &part.ranges)?;
    put_u32(out, part.issuers.len() as u32)?;
    put_issuers(out, &part.issuers)?;
    Ok(())
}

fn put_parts(out: &mut Vec<u8>, parts: &[LedgerPart]) -> Result<(), NoMemory>
    requires { All (λ p. IsSmall (part_fields p)) parts.now }
    ensures text { OnOk result (out.new.items ≡ out.old.items ++ flat_map part_text (map part_fields parts.now)) }
    ensures fits { OnOk result (All PartFits (map part_fields parts.now)) }
{
    for part in parts {
        put_part(out, part)?;
    }
    Ok(())
}

fn last_byte(last: Option<u8>) -> u8
    ensures { result ≡ last_number last }
{
    last.unwrap_or(NONE)
}

#[tactic(auto, unfolding(crate::specs::LedgerText::date_text))]
fn put_date(out: &mut Vec<u8>, until: Option<i64>) -> Result<(), NoMemory>
    ensures text { OnOk result (out.new.items ≡ out.old.items ++ date_text until) }
    ensures fits { IfSome until (FitsSigned w64) }
{
    let Some(until) = until else {
        return put_u8(out, 0);
    };
    put_u8(out, 1)?;
    put_u64(out, until.cast_unsigned())
}

#[tactic(auto, unfolding(crate::specs::LedgerText::item_text))]
fn put_item(out: &mut Vec<u8>, item: &LedgerItem) -> Result<(), NoMemory>
    ensures text { OnOk result (out.new.items ≡ out.old.items ++ item_text 2 item.now) }
    ensures fits { OnOk result (ItemFits item.now) }
{
    put_bytes(out, item.id.issuer.bytes())?;
    let serial = item.id.serial.bytes();
    put_u8(out, serial.len() as u8)?;
    put_bytes(out, serial)?;
    put_u8(out, item.birth)?;
    put_u8(out, last_byte(item.last))?;
    put_date(out, item.until)
}

fn put_items(out: &mut Vec<u8>, items: &[LedgerItem]) -> Result<(), NoMemory>
    ensures text { OnOk result (out.new.items ≡ out.old.items ++ flat_map (item_text 2) items.now) }
    ensures fits { OnOk result (All ItemFits items.now) }
{
    for item in items {
        put_item(out, item)?;
    }
    Ok(())
}

// All that stands before the identities.
#[tactic(auto, unfolding(crate::specs::LedgerText::head_text))]
fn put_head(out: &mut Vec<u8>, ledger: &Ledger) -> Result<(), NoMemory>
    ensures text { OnOk result (out.new.items ≡ out.old.items ++ head_text 2 ledger.now) }
    ensures fits { OnOk result (All PartFits ledger.now.parts) }
{
    let parts = ledger.parts();
    put_bytes(out, b"CLUBLEDG")?;
    put_u8(out, 2)?;
    put_u8(out, parts.len() as u8)?;
    put_parts(out, parts)?;
    put_u32(out, ledger.items().len() as u32)?;
    Ok(())
}

#[tactic(auto, unfolding(crate::specs::LedgerText::head_text, crate::specs::LedgerText::body_text))]
fn put_body(out: &mut Vec<u8>, ledger: &Ledger) -> Result<(), NoMemory>
    ensures text { OnOk result (out.new.items ≡ out.old.items ++ body_text 2 ledger.now) }
    ensures fits { OnOk result (Fits ledger.now) }
{
    put_head(out, ledger)?;
    put_items(out, ledger.items())?;
    Ok(())
}

// The text before the identities. Memory is asked for once.
fn encode_head(alloc: Global, ledger: &Ledger) -> Result<Vec<u8>, NoMemory>
    ensures text { IfOk result (λ head. head.items ≡ head_text 2 ledger.now) }
    ensures fits { OnOk result (All PartFits ledger.now.parts) }
{
    let mut out = Vec::with_capacity(alloc, HEAD + parts_len(ledger.parts()))?;
    put_head(&mut out, ledger)?;
    Ok(out)
}

// The text of identities. Memory is asked for once, for the longest text of as many: what this text leaves of it
// isn't touched.
fn encode_items(alloc: Global, items: &[LedgerItem]) -> Result<Vec<u8>, NoMemory>
    ensures text { IfOk result (λ text. text.items ≡ flat_map (item_text 2) items.now) }
    ensures fits { OnOk result (All ItemFits items.now) }
{
    let mut out = Vec::with_capacity(alloc, items.len().saturating_mul(LONGEST_ITEM))?;
    put_items(&mut out, items)?;
    Ok(out)
}

// The text of the identities in pieces, which several threads make.
fn item_pieces<R: Threads + Sync>(
    rt: &R,
    alloc: Global,
    items: &[LedgerItem],
) -> Result<Vec<Vec<u8>>, NoMemory>
    ensures text { IfOk result (λ pieces. flat_map (λ piece. piece.items) pieces.items ≡ flat_map (item_text 2) items.now) }
    ensures fits { OnOk result (All ItemFits items.now) }
{
    items
        .par_chunks(PIECE_ITEMS)
        .map(
            |chunk: &[LedgerItem]| -> Result<Vec<u8>, NoMemory>
                ensures { IfOk result (λ piece. (piece.items ≡ flat_map (item_text 2) chunk.entry.now) × All ItemFits chunk.entry.now) }
            { encode_items(alloc, chunk) },
        )
        .collect::<Result<Vec<Vec<u8>>, NoMemory>>(rt, alloc)?
}

/// The text of the ledger in version 2 but for its last 32 bytes, which are the SHA-256 (FIPS 180-4) of those before
/// them, so that they can be drawn while these are written. It is in pieces: one behind the other they make it. The
/// first stands before the identities; each of the others has 32,768 of these, or those that are left. From 65,536
/// identities on several threads make them. Each piece asks for memory once.
pub fn encode_ledger_pieces<R: Threads + Sync>(
    rt: &R,
    alloc: Global,
    ledger: &Ledger,
) -> Result<Vec<Vec<u8>>, NoMemory>
    ensures text { IfOk result (λ pieces. flat_map (λ piece. piece.items) pieces.items ≡ body_text 2 ledger.now) }
    ensures fits { OnOk result (Fits ledger.now) }
{
    let head = encode_head(alloc, ledger)?;
    let mut pieces = item_pieces(rt, alloc, ledger.items())?;
    pieces.insert(0, head)?;
    Ok(pieces)
}

// The text but for its digest. Memory is asked for once, for the longest text with as many identities and for the
// digest: what a text leaves of it isn't touched.
fn encode_body(alloc: Global, ledger: &Ledger) -> Result<Vec<u8>, NoMemory>
    ensures text { IfOk result (λ text. text.items ≡ body_text 2 ledger.now) }
    ensures fits { OnOk result (Fits ledger.now) }
{
    let room = FRAME + parts_len(ledger.parts()) + ledger.items().len() * LONGEST_ITEM;
    let mut out = Vec::with_capacity(alloc, room)?;
    put_body(&mut out, ledger)?;
    Ok(out)
}

/// The text of the ledger in version 2, with its digest. Memory is asked for once.
#[tactic(auto, unfolding(crate::specs::LedgerText::text_in))]
pub fn encode_ledger(alloc: Global, ledger: &Ledger) -> Result<Vec<u8>, NoMemory>
    ensures text { IfOk result (λ text. text.items ≡ ledger_text ledger.now) }
    ensures fits { OnOk result (Fits ledger.now) }
    ensures read_back { IfOk result (λ text. layout text.items 0 ≡ Ok (ledger.now, length text.items)) }
{
    let mut out = encode_body(alloc, ledger)?;
    let digest = Sha256::digest(out.as_slice());
    put_bytes(&mut out, &digest)?;
    Ok(out)
}
