//! Stores that are opened in what is lent.

ghost use Rattle.std.specs.Prelude.{◌≡◌, ◌≢◌, ◌⊎◌, ◌^◌, ◌<◌, List, length, Ok};
ghost use Rattle.octets_core.specs.Reading.{value_of};
ghost use Rattle.part_text.specs.SealedFields.{SealedFields};
ghost use Rattle.store_core.specs.StoreLayout.{store as store_layout};
ghost use Rattle.view_core.specs.Index.{index_of};
ghost use Rattle.view_core.specs.Opening.{opening, IsOpened};
ghost use Rattle.lending_core.specs.declared.numbers.TheConstants.{DONE, LAYOUT_VALUE, BAD_SIZE};
ghost use Rattle.lending_core.specs.Facts.{opened_number, opened_facts};

use crate::facts::{OPENED_SIZE, OpenedFacts, tell_opened};
use crate::numbers;
use view_core::{index_length, open};

/// Tests a store, and writes its index and what is told of it. `index_words` tells how many words the index needs.
/// Where another number than `DONE` is answered, the index may hold anything.
pub fn open_store(store: &[u8], index: &mut [u32], facts: &mut OpenedFacts) -> u32
    ensures told { facts.old.size ≡ OPENED_SIZE
        → (result ≡ opened_number (opening (length index.old) store.now))
        × (facts.new ≡ opened_facts (opening (length index.old) store.now)) }
    ensures bad_size { facts.old.size ≢ OPENED_SIZE
        → (result ≡ BAD_SIZE) × (facts.new ≡ facts.old) × (index.new ≡ index.old) }
    ensures index { result ≡ DONE → (parts : List SealedFields) → value_of (store_layout store.now 0) ≡ Ok parts
        → IsOpened store.now index.new parts }
    ensures len { length index.new ≡ length index.old }
{
    if facts.size != OPENED_SIZE {
        return numbers::BAD_SIZE;
    }
    tell_opened(open(store, index), facts)
}

/// Writes how many words the index of a store needs. Of bytes that are no store some number is written and `DONE`
/// answered, or 0 and `LAYOUT_VALUE`.
pub fn index_words(store: &[u8], words: &mut u64) -> u32
    ensures value { (parts : List SealedFields) → length store.now < 2 ^ 32
        → value_of (store_layout store.now 0) ≡ Ok parts → (result ≡ DONE) × (words.new ≡ length (index_of parts)) }
    ensures other { (result ≡ DONE) ⊎ ((result ≡ LAYOUT_VALUE) × (words.new ≡ 0)) }
{
    match index_length(store) {
        Some(wanted) => {
            *words = wanted as u64;
            numbers::DONE
        }
        None => {
            *words = 0;
            numbers::LAYOUT_VALUE
        }
    }
}
