//! Parts from bytes.

ghost use Rattle.std.specs.Prelude.{◌≡◌, ◌++◌, ◌≤◌, ℕ, List, length, take, Ok, IfOk, IfErr};
ghost use Rattle.octets_core.specs.Reading.{GivesUnless};
ghost use Rattle.part_text.specs.SealedFields.{SealedFields};
ghost use Rattle.part_text.specs.PartLayout.{part};
ghost use Rattle.part_text.specs.PartText.{spelling};
ghost use Rattle.part_text.specs.Fitting.{Fits};
ghost use Rattle.part_text.specs.Offsets.{offset_in_part};

use crate::reader::PartReader;
use part_text::{PartFault, Sealed};
use std::alloc::Global;

fn sealed_of(alloc: Global, bytes: &[u8]) -> Result<(Sealed, usize), PartFault>
    ensures { GivesUnless PartFault.NoMemory (λ x. x) result (part bytes.now 0) }
{
    let mut reader = PartReader::new(alloc);
    let taken = reader.feed(bytes)?;
    let sealed = reader.finish()?;
    Ok((sealed, taken))
}

/// The part that the bytes begin with, and how many bytes it has; what follows is left. An `Err` is the first field
/// that is short or fails its test, with its offset.
pub fn decode_part(alloc: Global, bytes: &[u8]) -> Result<(Sealed, usize), PartFault>
    // What is read is spelled so, each byte of it.
    ensures found { IfOk result (λ x. (take x.1 bytes.now ≡ spelling x.0) × Fits x.0) }
    // It ends where its text does.
    ensures takes { IfOk result (λ x. x.1 ≡ length (spelling x.0)) }
    // What is spelled so is read, whatever follows, unless memory is wanted.
    ensures only { (s : SealedFields) (rest : List ℕ) → Fits s → bytes.now ≡ spelling s ++ rest
        → GivesUnless PartFault.NoMemory (λ x. x) result (Ok (s, length (spelling s))) }
    // Which fault it is.
    ensures exact { GivesUnless PartFault.NoMemory (λ x. x) result (part bytes.now 0) }
    ensures len { IfOk result (λ x. x.1 ≤ length bytes.now) }
    ensures at { IfErr result (λ e. offset_in_part e ≤ length bytes.now) }
{
    sealed_of(alloc, bytes)
}
