//! Stores from bytes.

ghost use Rattle.std.specs.Prelude.{◌≡◌, IfOk, All};
ghost use Rattle.octets_core.specs.Reading.{GivesUnless, value_of};
ghost use Rattle.part_text.specs.Fitting.{Fits};
ghost use Rattle.store_core.specs.StoreLayout.{store as store_layout, store_text};

use crate::fault::StoreFault;
use crate::reader::StoreReader;
use crate::store::Store;
use octets_core::{Field, LayoutFault, Why};
use std::alloc::Global;

fn whole_store(alloc: Global, bytes: &[u8]) -> Result<Store, StoreFault>
    ensures { GivesUnless StoreFault.NoMemory (λ store. store) result (value_of (store_layout bytes.now 0)) }
{
    let mut reader = StoreReader::new(alloc);
    let taken = reader.feed(bytes)?;
    let store = reader.finish()?;
    if taken < bytes.len() {
        return Err(LayoutFault::new(taken, Field::End, Why::Value).into());
    }
    Ok(store)
}

/// The store that the bytes are. An `Err` is the first fault: a field, with its offset, or a part that the parts before
/// it don't take.
pub fn decode_store(alloc: Global, bytes: &[u8]) -> Result<Store, StoreFault>
    // Which store it is, or which fault.
    ensures exact { GivesUnless StoreFault.NoMemory (λ store. store) result (value_of (store_layout bytes.now 0)) }
    // What is read is spelled so, each byte of it, and its parts fit.
    ensures found { IfOk result (λ store. (bytes.now ≡ store_text store) × All Fits store) }
{
    whole_store(alloc, bytes)
}
