//! Pages from bytes.

ghost use Rattle.std.specs.Prelude.{◌≡◌, ◌≤◌, ◌^◌, length, map, All, None, IfOk, IfErr, IsSome, string_bytes};
ghost use Rattle.std.specs.Option.{option_map};
ghost use Rattle.std.specs.Str.{IsUtf8};
ghost use Rattle.octets_core.specs.Reading.{GivesUnless};
ghost use Rattle.serde_json.specs.View.{view, items_view};
ghost use Rattle.gather_core.specs.Pages.{PageFields, fields_of, json_of, listed, listed_items, text_at, decoded};
ghost use Rattle.gather_core.specs.Pages.{item_of, items_from, entries_of};
ghost use Rattle.gather_core.specs.Pages.{page_of, AreNumbered, EntryFits};

use crate::fault::PageFault;
use base64::DecodeAllocError;
use base64::engine::general_purpose::STANDARD;
use serde_json::Value;
use serde_json::error::Category;
use std::alloc::Global;

/// The most bytes of a page that is read.
pub const MAX_PAGE: usize = 67_108_864;

/// The most bytes of a leaf, and of extra data.
pub const MAX_DATA: usize = 16_777_215;

/// An entry as a log serves it: the leaf and the extra data (RFC 6962, 4.6).
#[derive(Debug, Drop)]
pub struct PageEntry {
    pub leaf: Vec<u8>,
    pub extra: Vec<u8>,
}

/// The value of a text.
fn parse(alloc: Global, text: &str) -> Result<Value, PageFault>
    requires { IsUtf8 text.now }
    ensures { GivesUnless PageFault.NoMemory (λ v. view v) result (json_of text.now) }
{
    match Value::from_str(alloc, text) {
        Ok(value) => Ok(value),
        Err(fault) => match fault.classify() {
            Category::Memory => Err(PageFault::NoMemory),
            _ => Err(PageFault::Json),
        },
    }
}

/// The items of an object with an array `entries`.
fn items_in(value: &Value) -> Option<&Vec<Value>>
    ensures { option_map (λ v. items_view v.now.items) result ≡ listed_items (view value.now) }
{
    value.get("entries").and_then(Value::as_array)
}

/// The string at a key of an object.
fn text_in<'v>(value: &'v Value, key: &str) -> Option<&'v str>
    ensures { option_map (λ s. s.now) result ≡ text_at key.now (view value.now) }
{
    value.get(key).and_then(Value::as_str)
}

/// The bytes that a string spells.
fn decode(alloc: Global, index: u32, text: &str) -> Result<Vec<u8>, PageFault>
    ensures { GivesUnless PageFault.NoMemory (λ v. v.items) result (decoded index text.now) }
{
    match STANDARD.decode(alloc, text.as_bytes()) {
        Ok(bytes) => Ok(bytes),
        Err(DecodeAllocError::DecodeError(_)) => Err(PageFault::Base64 { index }),
        Err(DecodeAllocError::OutOfMemory) => Err(PageFault::NoMemory),
    }
}

/// The entry of an item of this index.
fn entry_in(alloc: Global, index: u32, item: &Value) -> Result<PageEntry, PageFault>
    ensures exact { GivesUnless PageFault.NoMemory fields_of result (item_of index (view item.now)) }
    ensures fits { IfOk result (λ e. EntryFits (fields_of e)) }
{
    let Some(leaf) = text_in(item, "leaf_input") else {
        return Err(PageFault::Shape { index });
    };
    let Some(extra) = text_in(item, "extra_data") else {
        return Err(PageFault::Shape { index });
    };
    let leaf = decode(alloc, index, leaf)?;
    let extra = decode(alloc, index, extra)?;
    if leaf.len() > MAX_DATA || extra.len() > MAX_DATA {
        return Err(PageFault::Size { index });
    }
    Ok(PageEntry { leaf, extra })
}

/// The entries of items, in their order.
fn entries_in(alloc: Global, items: &[Value]) -> Result<Vec<PageEntry>, PageFault>
    requires { length items.now ≤ 2 ^ 32 }
    ensures exact { GivesUnless PageFault.NoMemory (λ v. map fields_of v.items) result (items_from 0 (items_view items.now)) }
    ensures fits { IfOk result (λ v. All EntryFits (map fields_of v.items)) }
{
    let mut entries = Vec::new(alloc);
    for item in items {
        let index = entries.len() as u32;
        entries.push(entry_in(alloc, index, item)?)?;
    }
    Ok(entries)
}

/// The entries of a value.
fn listed_in(alloc: Global, value: &Value) -> Result<Vec<PageEntry>, PageFault>
    requires { AreNumbered (view value.now) }
    ensures exact { GivesUnless PageFault.NoMemory (λ v. map fields_of v.items) result (entries_of (view value.now)) }
    ensures fits { IfOk result (λ v. All EntryFits (map fields_of v.items)) }
{
    match items_in(value) {
        Some(items) => entries_in(alloc, items),
        None => Err(PageFault::Shape { index: 0 }),
    }
}

/// The entries of a page, as its items decode, in their order.
///
/// The first fault is answered: the bytes aren't JSON in UTF-8; or the value isn't an object with an array `entries`;
/// or an item, one after the other, isn't an object with strings `leaf_input` and `extra_data`, or one of these isn't
/// Base64 with its padding, or one of them spells more than `MAX_DATA` bytes. Other members are ignored, and of two
/// equal keys the last counts.
pub fn read_page(alloc: Global, bytes: &[u8]) -> Result<Vec<PageEntry>, PageFault>
    requires { length bytes.now ≤ MAX_PAGE }
    ensures exact { GivesUnless PageFault.NoMemory (λ v. map fields_of v.items) result (page_of bytes.now) }
    ensures fits { IfOk result (λ v. All EntryFits (map fields_of v.items)) }
{
    let Ok(text) = str::from_utf8(bytes) else {
        return Err(PageFault::Json);
    };
    let value = parse(alloc, text)?;
    listed_in(alloc, &value)
}
