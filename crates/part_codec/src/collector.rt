//! What is collected of the fields of a part that passed.

ghost use Rattle.std.specs.Prelude.{◌≡◌, true, OnOk, OnErr};
ghost use Rattle.part_codec.specs.PileFields.{PileFields};
ghost use Rattle.part_codec.specs.Collecting.{AnyPile, CanPut, CanPutPlanes};
ghost use Rattle.part_codec.specs.Collecting.{pile_plane, pile_when, pile_passed, with_planes};

use crate::fields::{Kept, Open};
use octets_core::NoMemory;

/// What fields are put to, one after the other, as they pass.
pub(crate) trait Collector {
    /// The piles that it may have collected.
    ghost holds: { Self → PileFields → Type 0 };

    /// Whether memory may be wanted.
    ghost wants: { Type 0 };

    /// Collects bytes of a field, and what it tells if it is whole with them. So many are at hand behind them.
    fn put(
        &mut self,
        field: Open,
        kept: &Kept,
        piece: &[u8],
        whole: bool,
        bytes: usize,
    ) -> Result<(), NoMemory>
        requires { whole ≡ true → ∥ CanPut holds self.old field kept.now piece.now ∥₁ }
        ensures ok { OnOk result ((p : PileFields) → holds self.old p
            → holds self.new (pile_when whole field kept.now (pile_passed field p piece.now))) }
        ensures err { OnErr result wants };

    /// Collects the last planes of an approximate stage, so many, of which these are the bytes.
    fn put_planes(&mut self, kept: &Kept, count: u8, bytes: &[u8]) -> Result<(), NoMemory>
        requires { ∥ CanPutPlanes holds self.old kept.now count bytes.now ∥₁ }
        ensures ok { OnOk result ((p : PileFields) → holds self.old p
            → holds self.new (pile_plane 0 kept.now (with_planes p count bytes.now))) }
        ensures err { OnErr result wants };
}

/// A collector that keeps nothing.
#[derive(Drop)]
pub(crate) struct Nothing {}

impl Collector for Nothing {
    ghost holds = { AnyPile };

    ghost wants = { ⊥ };

    #[inline(always)]
    fn put(
        &mut self,
        _field: Open,
        _kept: &Kept,
        _piece: &[u8],
        _whole: bool,
        _bytes: usize,
    ) -> Result<(), NoMemory> {
        Ok(())
    }

    #[inline(always)]
    fn put_planes(&mut self, _kept: &Kept, _count: u8, _bytes: &[u8]) -> Result<(), NoMemory> {
        Ok(())
    }
}
