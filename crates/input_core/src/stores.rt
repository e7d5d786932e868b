//! Files that hold a store.

ghost use Rattle.std.specs.Prelude.{◌≡◌};
ghost use Rattle.octets_core.specs.Reading.{GivesUnless};
ghost use Rattle.outside_core.specs.Effects.{OnlyReads};
ghost use Rattle.outside_core.specs.Reads.{WhichFailed};
ghost use Rattle.input_core.specs.Inputs.{IsInput};
ghost use Rattle.input_core.specs.Readings.{store_in as store_of};

use crate::fault::FileFault;
use crate::fed::{Fed, made_of};
use outside_core::Depot;
use std::alloc::Global;
use store_core::{Store, StoreReader};

impl Fed for StoreReader {
    ghost use Rattle.store_core.specs.StoreReading.{ReadsFor, HasFailed};
    ghost use Rattle.store_core.specs.declared.fault.StoreFault.{StoreFault};
    ghost use Rattle.input_core.specs.declared.fault.FileFault.TheVariants.{NoMemory};

    type Made = Store;

    ghost stands = { λ reader b. ReadsFor reader b × ((e : StoreFault) → HasFailed reader e → ⊥) };

    ghost reads = { λ bytes r. GivesUnless NoMemory (λ x. x.0) r (store_of bytes) };

    fn put(&mut self, piece: &[u8]) -> Result<usize, FileFault> {
        match self.feed(piece) {
            Ok(taken) => Ok(taken),
            Err(fault) => Err(fault.into()),
        }
    }

    fn made(self) -> Result<Store, FileFault> {
        Ok(self.finish()?)
    }
}

/// The store of the file of this name.
pub fn store_in<D: Depot>(alloc: Global, depot: &mut D, name: &str) -> Result<Store, FileFault>
    ensures input { IsInput (D.files depot.old) (WhichFailed D.Depot depot.old depot.new) name.now
        store_of (λ s. s) result }
    ensures only_reads { OnlyReads D.Depot depot.old depot.new }
{
    let (store, _) = made_of(depot, name, StoreReader::new(alloc))?;
    Ok(store)
}
