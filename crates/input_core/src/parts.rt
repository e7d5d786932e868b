//! Files that hold one part.

ghost use Rattle.std.specs.Prelude.{◌≡◌, ℕ};
ghost use Rattle.octets_core.specs.Reading.{GivesUnless};
ghost use Rattle.outside_core.specs.Effects.{OnlyReads};
ghost use Rattle.outside_core.specs.Reads.{WhichFailed};
ghost use Rattle.input_core.specs.Inputs.{IsInput};
ghost use Rattle.input_core.specs.Readings.{part_in as part_of};

use crate::fault::FileFault;
use crate::fed::{Fed, made_of};
use outside_core::Depot;
use part_codec::{PartReader, Sealed};
use std::alloc::Global;

impl Fed for PartReader {
    ghost use Rattle.part_codec.specs.ReaderStanding.{ReadsFor, HasFailed};
    ghost use Rattle.part_text.specs.declared.fault.PartFault.{PartFault};
    ghost use Rattle.input_core.specs.declared.fault.FileFault.TheVariants.{NoMemory};

    type Made = Sealed;

    ghost stands = { λ reader b. ReadsFor reader b × ((e : PartFault) → HasFailed reader e → ⊥) };

    ghost reads = { λ bytes r. GivesUnless NoMemory (λ x. x) r (part_of bytes) };

    fn put(&mut self, piece: &[u8]) -> Result<usize, FileFault> {
        Ok(self.feed(piece)?)
    }

    fn made(self) -> Result<Sealed, FileFault> {
        Ok(self.finish()?)
    }
}

/// The part of the file of this name, and how many bytes it has.
pub fn part_in<D: Depot>(
    alloc: Global,
    depot: &mut D,
    name: &str,
) -> Result<(Sealed, usize), FileFault>
    ensures input { IsInput (D.files depot.old) (WhichFailed D.Depot depot.old depot.new) name.now
        part_of (λ x. x) result }
    ensures only_reads { OnlyReads D.Depot depot.old depot.new }
{
    let (sealed, len) = made_of(depot, name, PartReader::new(alloc))?;
    Ok((sealed, len as usize))
}
