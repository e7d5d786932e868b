//! Files that are scanned: a part is read piece by piece, and no byte of it is kept. No memory is taken.

ghost use Rattle.std.specs.Prelude.{◌≡◌};
ghost use Rattle.outside_core.specs.Effects.{OnlyReads};
ghost use Rattle.outside_core.specs.Reads.{WhichFailed};
ghost use Rattle.input_core.specs.Readings.{part_in as part_of};
ghost use Rattle.input_core.specs.Scanned.{noted_file, first_of, unscanned, IsScan};

use crate::fault::FileFault;
use crate::fed::{Fed, made_of};
use octets_core::LayoutFault;
use outside_core::Depot;
use part_codec::{PartNote, PartScan};

/// Why nothing is noted of a file.
#[derive(Clone, Copy, Debug, PartialEq, Eq)]
pub enum ScanFault {
    /// A read failed.
    Unread,
    /// It is no part.
    Layout(LayoutFault),
}

impl Fed for PartScan {
    ghost use Rattle.octets_core.specs.declared.fault.LayoutFault.{LayoutFault};
    ghost use Rattle.part_codec.specs.Standing.{StandsFor, HasFailed};

    type Made = PartNote;

    ghost stands = { λ scan b. StandsFor scan b × ((e : LayoutFault) → HasFailed scan e → ⊥) };

    ghost reads = { λ bytes r. noted_file (part_of bytes) ≡ first_of r };

    fn put(&mut self, piece: &[u8]) -> Result<usize, FileFault> {
        Ok(self.feed(piece)?)
    }

    fn made(self) -> Result<PartNote, FileFault> {
        Ok(self.finish()?)
    }
}

fn scan_fault(fault: FileFault) -> ScanFault
    ensures { result ≡ unscanned fault }
{
    match fault {
        FileFault::Layout(fault) => ScanFault::Layout(fault),
        _ => ScanFault::Unread,
    }
}

/// What is noted of the part that the file of this name is.
pub fn scan_file<D: Depot>(depot: &mut D, name: &str) -> Result<PartNote, ScanFault>
    ensures scan { IsScan (D.files depot.old) (WhichFailed D.Depot depot.old depot.new) name.now result }
    ensures only_reads { OnlyReads D.Depot depot.old depot.new }
{
    match made_of(depot, name, PartScan::new()) {
        Ok((note, _)) => Ok(note),
        Err(fault) => Err(scan_fault(fault)),
    }
}
