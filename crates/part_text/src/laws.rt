//! What follows for every part, with no call.

ghost use Rattle.std.specs.Prelude.{◌≡◌, ◌++◌, ℕ, List, length, Ok};
ghost use Rattle.part_text.specs.SealedFields.{SealedFields};
ghost use Rattle.octets_core.specs.OfFields.{IsOfFields, IsShort};
ghost use Rattle.part_text.specs.PartLayout.{part, sealed};
ghost use Rattle.part_text.specs.PartText.{spelling};
ghost use Rattle.part_text.specs.Fitting.{Fits};

/// The text of a part is read as that part, with its length, whatever follows. Each part that `encode_part` writes
/// fits.
pub fn a_text_is_read_back()
    ensures { (s : SealedFields) (rest : List ℕ) → Fits s → part (spelling s ++ rest) 0 ≡ Ok (s, length (spelling s)) }
{}

/// A part is a list of fields, each with a width and a test that depend on the fields before it alone: bytes behind
/// those that were read change neither the part nor the fault, unless a field was short.
pub fn bytes_behind_change_nothing()
    ensures { IsOfFields IsShort sealed }
{}
