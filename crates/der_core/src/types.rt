use std::marker::Model;

/// One element of DER: a tag and contents, which lie in the bytes that were read.
#[derive(Clone, Copy, Debug)]
pub struct Element<'a> {
    /// The tag byte, with its class and whether it is constructed, as 0x30 for a SEQUENCE.
    pub tag: u8,
    pub contents: &'a [u8],
}

/// Why no element stands at the front of some bytes: the first step of reading that fails.
#[derive(Clone, Copy, Debug, PartialEq, Eq)]
pub enum DerFault {
    /// The tag, the length, one of its octets or the contents aren't there whole.
    Short,
    /// The tag has more than one byte (X.690, 8.1.2.4), which this profile doesn't take.
    BadTag,
    /// The length is indefinite, has more than four octets, or isn't in the fewest (X.690, 8.1.3 and 10.1).
    BadLength,
}

/// The element is no time.
#[derive(Clone, Copy, Debug, PartialEq, Eq)]
pub struct BadTime;

/// The elements of some bytes, one after the other: an iterator that ends after the bytes, or after one fault.
/// Contracts see it as the bytes that are left.
#[derive(Debug, Drop)]
pub struct Elements<'a> {
    pub(crate) rest: &'a [u8],
}

impl<'a> Model for Elements<'a> {
    ghost use Rattle.std.specs.Prelude.{List, ℕ};

    ghost Value = { List ℕ };

    ghost view = { λ s. s.rest.now };
}
