ghost use Rattle.std.specs.Prelude.{◌≡◌};
ghost use Rattle.ident_core.specs.HeadFields.{IsHead};

use crate::kind::Kind;
use crate::range::Range;
use octets_core::Key32;
use std::marker::Model;

/// The head of a part: its place in a chain, and the times that it covers. Each head keeps at most 1,024 ranges with
/// strictly ascending logs, none that ends before it begins, and in a snapshot a parent of zeros.
#[derive(Debug, Drop)]
pub struct Head {
    kind: Kind,
    epoch: u64,
    parent: Key32,
    ranges: Vec<Range>,
}

impl Model for Head {
    ghost use Rattle.ident_core.specs.HeadFields.{HeadFields, IsHead};

    ghost Value = { HeadFields };

    ghost view = { λ h. record { kind = h.kind; epoch = h.epoch; parent = h.parent; ranges = h.ranges.items } };

    ghost invariant = { λ h. IsHead (record { kind = h.kind; epoch = h.epoch; parent = h.parent; ranges = h.ranges.items }) };
}

impl Head {
    /// The head of these fields.
    pub fn new(kind: Kind, epoch: u64, parent: Key32, ranges: Vec<Range>) -> Head
        requires { IsHead (record { kind = kind; epoch = epoch; parent = parent; ranges = ranges.items }) }
        ensures { result ≡ record { kind = kind; epoch = epoch; parent = parent; ranges = ranges.items } }
    {
        Head {
            kind,
            epoch,
            parent,
            ranges,
        }
    }

    /// Whether the part begins a chain.
    pub fn kind(&self) -> Kind
        ensures { result ≡ self.now.kind }
    {
        self.kind
    }

    /// The epoch of the part's job.
    pub fn epoch(&self) -> u64
        ensures { result ≡ self.now.epoch }
    {
        self.epoch
    }

    /// The trailer of the part before it in its chain, or zeros.
    pub fn parent(&self) -> Key32
        ensures { result ≡ self.now.parent }
    {
        self.parent
    }

    /// The ranges that the part covers.
    pub fn ranges(&self) -> &[Range]
        ensures value { result.now ≡ self.now.ranges }
        ensures facts { IsHead self.now }
    {
        self.ranges.as_slice()
    }
}
