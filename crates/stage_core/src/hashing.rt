ghost use Rattle.std.specs.Prelude.{◌≡◌, ◌≤◌, ◌<◌, ◌^◌, ℕ, Bool, List, Result, Option, length, IfOk};
ghost use Rattle.std.specs.Borrow.{Bor};
ghost use Rattle.std.specs.declared.alloc.AllocError.{AllocError};
ghost use Rattle.std.specs.declared.alloc.Global.{Global};
ghost use Rattle.std.specs.declared.vec.Vec.{Vec};
ghost use Rattle.ident_core.specs.declared.identity.Identity.{Identity};
ghost use Rattle.equation_core.specs.declared.hash.Row.{Row};
ghost use Rattle.equation_core.specs.Rows.{IsRow, Rows};
ghost use Rattle.card_core.specs.declared.stage.Stage.{Stage};
ghost use Rattle.stage_core.specs.Members.{flagged_rows, false_positive_flags};
ghost use Rattle.stage_core.specs.declared.keys.Shape.{Shape};

use crate::keys::Shape;
use crate::passing::flags_alone;
use crate::rows::rows_alone;
use card_core::Stage;
use equation_core::{EquationHash, Row};
use ident_core::Identity;
use std::alloc::{AllocError, Global};

/// A hash with a way to go over a universe by it.
pub trait Hashing {
    ghost row_of: { Self → Rows };

    /// What its threads may share.
    ghost shared: { Self → Type 0 };

    /// The rows of the members whose flag is set, in order, for a stage and a seed.
    fn rows(
        &self,
        alloc: Global,
        shape: Shape,
        seed: u8,
        universe: &[Identity],
        flags: &[bool],
    ) -> Result<Vec<Row>, AllocError>
        requires shared { shared self.now }
        requires some { 1 ≤ shape.starts }
        requires flags { length flags.now ≤ length universe.now }
        ensures { IfOk result (λ v. v.items ≡ flagged_rows (row_of self.now) shape seed universe.now flags.now) };

    /// Of each member of the universe, in order, whether it is a false positive.
    fn passed(
        &self,
        alloc: Global,
        approx: &Option<Stage>,
        universe: &[Identity],
        revoked: &[bool],
    ) -> Result<Vec<bool>, AllocError>
        requires shared { shared self.now }
        requires flags { length revoked.now ≡ length universe.now }
        ensures { IfOk result (λ v. v.items ≡ false_positive_flags (row_of self.now) approx.now universe.now revoked.now) };

    ghost formed: { (hashing : Self) (stage seed : ℕ) (id : Identity) (starts : ℕ)
        → stage < 2 ^ 8 → seed < 2 ^ 8 → 1 ≤ starts → starts < 2 ^ 32
        → IsRow starts (row_of hashing stage seed id starts) };
}

/// All on the caller's thread.
#[derive(Clone, Copy)]
pub struct OneThread<'a, H> {
    pub hash: &'a H,
}

impl<'a, H: EquationHash> Hashing for OneThread<'a, H> {
    ghost row_of = { λ hashing. H.row_of hashing.hash.now };

    ghost shared = { λ hashing. Unit {0} };

    ghost formed = { λ hashing. H.formed hashing.hash.now };

    fn rows(
        &self,
        alloc: Global,
        shape: Shape,
        seed: u8,
        universe: &[Identity],
        flags: &[bool],
    ) -> Result<Vec<Row>, AllocError> {
        rows_alone(alloc, self.hash, shape, seed, universe, flags)
    }

    fn passed(
        &self,
        alloc: Global,
        approx: &Option<Stage>,
        universe: &[Identity],
        revoked: &[bool],
    ) -> Result<Vec<bool>, AllocError> {
        flags_alone(alloc, self.hash, approx, universe, revoked)
    }
}

/// A hash, and calls that go over a universe by it in several threads: one for the rows of the members whose flag is
/// set, and one for the flags of the false positives.
#[derive(Clone, Copy)]
pub struct ByCalls<'a, H, F, P> {
    pub hash: &'a H,
    pub rows: &'a F,
    pub passed: &'a P,
}

impl<
    'a,
    H: EquationHash,
    F: Fn(Shape, u8, &[Identity], &[bool]) -> Result<Vec<Row>, AllocError>,
    P: Fn(&Option<Stage>, &[Identity], &[bool]) -> Result<Vec<bool>, AllocError>,
> Hashing for ByCalls<'a, H, F, P> {
    ghost row_of = { λ hashing. H.row_of hashing.hash.now };

    ghost shared = { λ hashing.
        ((shape : Shape) (seed : ℕ) (universe : Bor (List Identity)) (flags : Bor (List Bool))
        → 1 ≤ shape.starts → length flags.now ≤ length universe.now
        → F.pre hashing.rows.now shape seed universe flags
        × ((r : Result (Vec Row Global) AllocError) → F.post hashing.rows.now shape seed universe flags r
        → IfOk r (λ v. v.items ≡ flagged_rows (H.row_of hashing.hash.now) shape seed universe.now flags.now)))
        × ((approx : Bor (Option Stage)) (universe : Bor (List Identity)) (revoked : Bor (List Bool))
        → length revoked.now ≡ length universe.now
        → P.pre hashing.passed.now approx universe revoked
        × ((r : Result (Vec Bool Global) AllocError) → P.post hashing.passed.now approx universe revoked r
        → IfOk r (λ v. v.items ≡ false_positive_flags (H.row_of hashing.hash.now) approx.now universe.now revoked.now))) };

    ghost formed = { λ hashing. H.formed hashing.hash.now };

    fn rows(
        &self,
        alloc: Global,
        shape: Shape,
        seed: u8,
        universe: &[Identity],
        flags: &[bool],
    ) -> Result<Vec<Row>, AllocError> {
        (self.rows)(shape, seed, universe, flags)
    }

    fn passed(
        &self,
        alloc: Global,
        approx: &Option<Stage>,
        universe: &[Identity],
        revoked: &[bool],
    ) -> Result<Vec<bool>, AllocError> {
        (self.passed)(approx, universe, revoked)
    }
}
