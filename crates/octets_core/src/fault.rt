ghost use Rattle.std.specs.Prelude.{◌≡◌};

use crate::field::Field;

/// What is wrong with a field.
#[derive(Clone, Copy, Debug, PartialEq, Eq)]
pub enum Why {
    /// Not all of its bytes are there.
    Short,
    /// It fails its test.
    Value,
    /// It isn't the digest of the bytes before it.
    Digest,
}

/// The first field of a layout that is short or fails its test.
#[derive(Clone, Copy, Debug, PartialEq, Eq)]
pub struct LayoutFault {
    /// The offset of the field's first byte, from the beginning of the file or slice.
    pub at: u64,
    /// The field.
    pub field: Field,
    /// What is wrong with it.
    pub why: Why,
}

impl LayoutFault {
    /// The fault of the field whose first byte has this offset.
    pub fn new(at: usize, field: Field, why: Why) -> LayoutFault
        ensures { result ≡ record { at = at; field = field; why = why } }
    {
        LayoutFault {
            at: at as u64,
            field,
            why,
        }
    }
}
