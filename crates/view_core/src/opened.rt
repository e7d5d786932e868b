//! Stores that are opened: tested once, and an index written for any number of verdicts.

ghost use Rattle.std.specs.Prelude.{◌≡◌, List, length, Ok, OnOk};
ghost use Rattle.octets_core.specs.Reading.{value_of};
ghost use Rattle.part_text.specs.SealedFields.{SealedFields};
ghost use Rattle.store_core.specs.StoreLayout.{store as store_layout};
ghost use Rattle.view_core.specs.Opening.{opening, IsOpened};

use crate::check::{StoreNote, check_store};
use crate::fill::fill;
use store_core::StoreFault;

/// What is known of a store that was opened.
#[derive(Clone, Copy, Debug, PartialEq, Eq)]
pub struct Opened {
    pub note: StoreNote,
    /// How many words its index has.
    pub words: usize,
}

/// Why a store isn't opened.
#[derive(Clone, Copy, Debug, PartialEq, Eq)]
pub enum OpenFault {
    /// There are 2^32 bytes or more.
    TooLong,
    /// The bytes are no store.
    Store(StoreFault),
    /// The index has fewer words than it takes.
    IndexTooShort { wanted: usize },
}

/// Tests a store, and writes its index into the first words of a slice. `index_length` tells how many are wanted. After
/// an `Err` the slice holds any words.
pub fn open(store: &[u8], index: &mut [u32]) -> Result<Opened, OpenFault>
    ensures exact { result ≡ opening (length index.old) store.now }
    ensures index { OnOk result ((parts : List SealedFields) → value_of (store_layout store.now 0) ≡ Ok parts
        → IsOpened store.now index.new parts) }
    ensures len { length index.new ≡ length index.old }
{
    if store.len() > u32::MAX as usize {
        return Err(OpenFault::TooLong);
    }
    let note = match check_store(store) {
        Ok(note) => note,
        Err(fault) => return Err(OpenFault::Store(fault)),
    };
    let words = fill(store, index).unwrap_or(usize::MAX);
    if index.len() < words {
        return Err(OpenFault::IndexTooShort { wanted: words });
    }
    Ok(Opened { note, words })
}
