//! Fields that are whole in a piece, which the machine takes at once.

ghost use Rattle.std.specs.Prelude.{◌≡◌, ◌≤◌, ◌<◌, ◌+◌, ◌*◌, ℕ, List, length, take, true, IfOk, OnOk, IfErr};
ghost use Rattle.equation_core.specs.Sizes.{words_for as words_of};
ghost use Rattle.part_codec.specs.Stepping.{leads_on, kept_after, open_after};

use crate::fields::{Open, are_padded, at_leaf, is_last_padded, keep_leaf, number8, passes, tail};
use crate::machine::Machine;
use equation_core::words_for;
use octets_core::{LayoutFault, Why};

impl Machine {
    ghost use Rattle.part_codec.specs.Taking.{IsFront, IsPartial, StandsBehind, MovedBehind, Advances, PassesPlanes, Fails};

    /// Takes the open field, which this is, where it is whole in the piece and passes its test, and opens the next one.
    /// Answers how many bytes it has, or 0 where nothing is taken.
    #[inline(always)]
    pub(crate) fn whole_field(&mut self, field: Open, piece: &[u8]) -> usize
        requires field { self.old.field ≡ field }
        requires leads { leads_on field ≡ true }
        requires front { IsFront self.old }
        ensures taken { 0 < result → Advances self.old self.new piece.now (result, true) }
        ensures left { result ≡ 0 → self.new ≡ self.old }
        ensures next { 0 < result → self.new.field ≡ open_after field self.new.kept }
    {
        let want = tail(field);
        if self.filled > 0 || piece.len() < want {
            return 0;
        }
        let last = &piece[..want];
        if !passes(field, &self.kept, last) {
            return 0;
        }
        self.open_next(last);
        want
    }

    /// Takes the mode of a block, where it is in the piece and passes its test, and opens the next field; not of the last
    /// block where that says none or all, since what follows it has no byte. Answers how many bytes it has, or 0 where
    /// nothing is taken.
    #[inline(always)]
    pub(crate) fn whole_mode(&mut self, piece: &[u8]) -> usize
        requires field { self.old.field ≡ Open.BlockMode }
        requires front { IsFront self.old }
        ensures taken { 0 < result → Advances self.old self.new piece.now (result, true) }
        ensures left { result ≡ 0 → self.new ≡ self.old }
    {
        if self.filled > 0 || piece.len() < 1 {
            return 0;
        }
        let mode = &piece[..1];
        if number8(mode) > 1 {
            if !passes(Open::BlockMode, &self.kept, mode) {
                return 0;
            }
            self.open_next(mode);
            return 1;
        }
        if self.kept.left < 2 || !passes(Open::BlockMode, &self.kept, mode) {
            return 0;
        }
        self.open_next(mode);
        1
    }

    /// Behind the last approximate plane, where these are the bytes of all: opens the next field.
    #[inline(always)]
    fn pass_planes(&mut self, planes: &[u8])
        requires field { self.old.field ≡ Open.ApproxPlane }
        requires some { 1 ≤ self.old.kept.planes }
        requires len { length planes.now ≡ self.old.kept.planes * (8 * words_of self.old.kept.starts) }
        ensures kept { self.new.kept ≡ record self.old.kept { planes = 0 } }
        ensures next { self.new.field ≡ Open.ExactSeed }
        ensures at { self.new.at ≡ self.old.at + length planes.now }
        ensures passed { self.new.passed ≡ 0 }
        ensures empty { self.new.filled ≡ 0 }
    {
        self.at += planes.len() as u64;
        self.kept.planes = 0;
        self.field = Open::ExactSeed;
        self.passed = 0;
        self.filled = 0;
    }

    /// Takes all approximate planes of a stage, where they are whole in the piece and pass their tests, and opens the
    /// next field. Answers how many bytes they have, or 0 where nothing is taken.
    #[inline(always)]
    pub(crate) fn whole_planes(&mut self, piece: &[u8]) -> usize
        requires field { self.old.field ≡ Open.ApproxPlane }
        requires front { IsFront self.old }
        ensures taken { 0 < result → PassesPlanes self.old self.new (take result piece.now) }
        ensures left { result ≡ 0 → self.new ≡ self.old }
        ensures count { result ≤ length piece.now }
    {
        let count = self.kept.planes;
        let width = usize::from(count) * (8 * words_for(self.kept.starts));
        if count == 0 || self.passed > 0 || self.filled > 0 || piece.len() < width {
            return 0;
        }
        let planes = &piece[..width];
        if !are_padded(self.kept.starts, count, planes) {
            return 0;
        }
        self.pass_planes(planes);
        width
    }

    /// Behind an exact plane, all of which this is and which passed: opens the next field.
    #[inline(always)]
    fn pass_exact(&mut self, plane: &[u8])
        requires field { self.old.field ≡ Open.ExactPlane }
        requires len { length plane.now ≡ 8 * words_of self.old.kept.starts }
        ensures kept { (last : List ℕ) → self.new.kept ≡ kept_after self.old.field self.old.kept last }
        ensures next { self.new.field ≡ open_after self.old.field self.new.kept }
        ensures at { self.new.at ≡ self.old.at + length plane.now }
        ensures passed { self.new.passed ≡ 0 }
        ensures empty { self.new.filled ≡ 0 }
    {
        self.at += plane.len() as u64;
        keep_leaf(&mut self.kept);
        self.field = at_leaf(self.kept.leaves, self.kept.left);
        self.passed = 0;
        self.filled = 0;
    }

    /// An exact plane, all of which this is: tests it, and opens the next field.
    #[inline(always)]
    fn complete_exact(&mut self, plane: &[u8]) -> Result<(), LayoutFault>
        requires field { self.old.field ≡ Open.ExactPlane }
        requires passed { self.old.passed ≡ 0 }
        requires empty { self.old.filled ≡ 0 }
        requires len { length plane.now ≡ 8 * words_of self.old.kept.starts }
        ensures ok { OnOk result (StandsBehind self.old self.new plane.now) }
        ensures moved { OnOk result (MovedBehind self.old self.new plane.now) }
        ensures err { IfErr result (Fails self.old plane.now) }
        ensures partial { OnOk result (IsPartial self.new) }
    {
        if !is_last_padded(self.kept.starts, &plane[plane.len() - 8..]) {
            return Err(self.fault(Why::Value));
        }
        self.pass_exact(plane);
        self.settle()
    }

    /// `step` at an exact plane. One that is whole in the piece is taken where nothing goes by the open field.
    #[inline(always)]
    pub(super) fn advance_exact(&mut self, piece: &[u8]) -> Result<(usize, bool), LayoutFault>
        requires field { self.old.field ≡ Open.ExactPlane }
        requires front { IsFront self.old }
        ensures ok { IfOk result (Advances self.old self.new piece.now) }
        ensures err { IfErr result (Fails self.old piece.now) }
    {
        let width = 8 * words_for(self.kept.starts);
        if self.passed == 0 && self.filled == 0 && piece.len() >= width {
            self.complete_exact(&piece[..width])?;
            return Ok((width, true));
        }
        self.step_apart(piece)
    }
}
