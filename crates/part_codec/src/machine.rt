//! The machine that reads a part in pieces, up to its trailer and then the trailer. It takes no memory: of the open
//! field it holds what the field's test needs, which is at most 32 bytes, and a plane passes through it up to its last
//! word.

ghost use Rattle.std.specs.Prelude.{◌≡◌, ◌≢◌, ◌≤◌, ◌<◌, ◌+◌, ◌++◌, ℕ, List, [], length, take, drop, true, false};
ghost use Rattle.std.specs.Prelude.{Ok, Err, IfOk, OnOk, IfErr};
ghost use Rattle.sha2.specs.Hashers.{Holds256};
ghost use Rattle.part_codec.specs.declared.machine.TheConstants.{MAX_PART};
ghost use Rattle.part_text.specs.PartLayout.{sealed};
ghost use Rattle.part_codec.specs.Remaining.{Seen, nothing_seen};
ghost use Rattle.part_codec.specs.Stepping.{in_front, skips as skips_of, tail_of, kept_after, seen_after, open_after, settled};
ghost use Rattle.part_codec.specs.Stepping.{AreStarts, AreLimits, name_of, still};

mod whole;

use crate::fields::{Kept, Open, TRAILER, is_digest, keep, name, next_of, passes, skips, tail};
use card_core::MAX_BLOCKS;
use ident_core::{MAX_RANGES, RANGE_BYTES};
use octets_core::{Key32, LayoutFault, Why};
use part_text::MAX_BLOCK;
use sha2::Sha256;

/// The bytes of a part's head up to its ranges.
pub(crate) const HEAD: u64 = 52;

/// No part has more bytes.
pub(crate) const MAX_PART: u64 = HEAD
    + RANGE_BYTES as u64 * MAX_RANGES as u64
    + 4
    + MAX_BLOCK as u64 * MAX_BLOCKS as u64
    + TRAILER as u64;

/// Reads in pieces.
#[derive(Drop)]
pub(crate) struct Machine {
    pub(crate) field: Open,
    pub(crate) kept: Kept,
    /// What came of the open field, but for what was passed.
    held: [u8; 32],
    pub(crate) filled: usize,
    /// How many bytes of the open field were passed.
    passed: usize,
    /// The offset of its first byte.
    pub(crate) at: u64,
    ghost few: { filled ≤ tail_of field },
    ghost before: { passed ≤ skips_of field kept },
    ghost order: { 0 < filled → passed ≡ skips_of field kept },
    ghost starts: { AreStarts kept.starts },
    ghost room: { at + still field kept ≤ MAX_PART },
}

impl Machine {
    ghost use Rattle.part_codec.specs.Scanning.{Opened, IsWhole, Tested, Stands, Stays, Passes, Moved};
    ghost use Rattle.part_codec.specs.Taking.{IsFront, IsPartial, EndsField, StandsBehind, MovedBehind};
    ghost use Rattle.part_codec.specs.Taking.{Advances, Closes, Fails, FailsAtEnd};

    /// At the first field.
    pub(crate) fn new() -> Machine
        ensures stands { Stands result nothing_seen [] }
        ensures field { result.field ≡ Open.Magic }
        ensures partial { result.filled < tail_of result.field }
    {
        let zero = Key32::new([0; 32]);
        Machine {
            field: Open::Magic,
            kept: Kept {
                version: 1,
                kind: 0,
                epoch: 0,
                parent: zero,
                ranges: 0,
                ranges_left: 0,
                issuers: 0,
                left: 0,
                shift: 0,
                leaves: 0,
                sharded: false,
                any: false,
                key: zero,
                from: 0,
                to: 0,
                mode: 0,
                planes: 0,
                seed: 0,
                starts: 1,
                trailer: zero,
            },
            held: [0; 32],
            filled: 0,
            passed: 0,
            at: 0,
        }
    }

    /// A fault of the open field.
    fn fault(&self, why: Why) -> LayoutFault
        ensures { result ≡ record { at = self.now.at; field = name_of self.now.field; why = why } }
    {
        LayoutFault {
            at: self.at,
            field: name(self.field),
            why,
        }
    }

    /// The fault of an end here.
    pub(crate) fn short(&self) -> LayoutFault
        ensures { result ≡ record { at = self.now.at; field = name_of self.now.field; why = Why.Short } }
    {
        self.fault(Why::Short)
    }

    /// The open field passed: opens the next one.
    #[inline(always)]
    fn open_next(&mut self, last: &[u8])
        requires goes { self.old.field ≢ Open.Done }
        requires passed { self.old.passed ≡ skips_of self.old.field self.old.kept }
        requires len { length last.now ≡ tail_of self.old.field }
        requires limits { AreLimits self.old.field last.now }
        ensures ok { (s : Seen) (b : List ℕ) → Opened self.old s b → IsWhole self.old last.now b → Tested self.old last.now b
            → Stands self.new (seen_after self.old.field self.old.kept s (drop self.old.at b)) b }
        ensures moved { (s : Seen) (b : List ℕ) → Opened self.old s b → IsWhole self.old last.now b → Tested self.old last.now b
            → Passes self.old self.new b }
        ensures kept { self.new.kept ≡ kept_after self.old.field self.old.kept last.now }
        ensures at { self.new.at ≡ self.old.at + self.old.passed + length last.now }
        ensures next { self.new.field ≡ open_after self.old.field self.new.kept }
        ensures passed { self.new.passed ≡ 0 }
        ensures empty { self.new.filled ≡ 0 }
    {
        self.at += (self.passed + last.len()) as u64;
        keep(&mut self.kept, self.field, last);
        self.field = next_of(self.field, &self.kept);
        self.passed = 0;
        self.filled = 0;
    }

    /// Behind the last block: tests whether one is sharded, and opens the trailer.
    fn pass_sharded(&mut self) -> Result<(), LayoutFault>
        requires field { self.old.field ≡ Open.Sharded }
        requires passed { self.old.passed ≡ 0 }
        ensures ok { OnOk result ((s : Seen) (b : List ℕ) → Stands self.old s b → Stands self.new s b) }
        ensures err { IfErr result (λ e. (s : Seen) (b x : List ℕ) → Stands self.old s b → sealed (b ++ x) 0 ≡ Err e) }
        ensures next { OnOk result (self.new.field ≡ Open.Trailer) }
        ensures kept { OnOk result (self.new.kept ≡ self.old.kept) }
        ensures at { OnOk result (self.new.at ≡ self.old.at) }
        ensures passed { OnOk result (self.new.passed ≡ 0) }
        ensures empty { OnOk result (self.new.filled ≡ 0) }
    {
        let none: [u8; 0] = [];
        if !passes(self.field, &self.kept, &none) {
            return Err(self.fault(Why::Value));
        }
        self.open_next(&none);
        Ok(())
    }

    /// Passes the field that has no byte, if that is open.
    #[inline(always)]
    fn settle(&mut self) -> Result<(), LayoutFault>
        requires passed { self.old.passed ≡ 0 }
        requires empty { self.old.filled ≡ 0 }
        ensures ok { OnOk result ((s : Seen) (b : List ℕ) → Stands self.old s b → Stands self.new s b) }
        ensures err { IfErr result (λ e. (s : Seen) (b x : List ℕ) → Stands self.old s b → sealed (b ++ x) 0 ≡ Err e) }
        ensures next { OnOk result (self.new.field ≡ settled self.old.field) }
        ensures kept { OnOk result (self.new.kept ≡ self.old.kept) }
        ensures at { OnOk result (self.new.at ≡ self.old.at) }
        ensures passed { OnOk result (self.new.passed ≡ 0) }
        ensures empty { OnOk result (self.new.filled ≡ 0) }
    {
        match self.field {
            Open::Sharded => self.pass_sharded(),
            _ => Ok(()),
        }
    }

    /// The open field is whole, and these of its bytes are held: tests it, and opens the next one.
    #[inline(always)]
    fn complete(&mut self, last: &[u8]) -> Result<(), LayoutFault>
        requires front { in_front self.old.field ≡ true }
        requires passed { self.old.passed ≡ skips_of self.old.field self.old.kept }
        requires len { length last.now ≡ tail_of self.old.field }
        ensures ok { OnOk result ((s : Seen) (b : List ℕ) → Opened self.old s b → IsWhole self.old last.now b
            → Stands self.new (seen_after self.old.field self.old.kept s (drop self.old.at b)) b) }
        ensures moved { OnOk result ((s : Seen) (b : List ℕ) → Opened self.old s b → IsWhole self.old last.now b
            → Moved true self.old self.new b) }
        ensures err { IfErr result (λ e. (s : Seen) (b x : List ℕ) → Opened self.old s b → IsWhole self.old last.now b
            → sealed (b ++ x) 0 ≡ Err e) }
        ensures next { OnOk result (self.new.field ≡ settled (open_after self.old.field self.new.kept)) }
        ensures partial { OnOk result (IsPartial self.new) }
        ensures passed { OnOk result (self.new.passed ≡ 0) }
        ensures empty { OnOk result (self.new.filled ≡ 0) }
    {
        if !passes(self.field, &self.kept, last) {
            return Err(self.fault(Why::Value));
        }
        self.open_next(last);
        self.settle()
    }

    /// Holds bytes of the open field.
    fn hold(&mut self, piece: &[u8])
        requires passed { self.old.passed ≡ skips_of self.old.field self.old.kept }
        requires room { self.old.filled + length piece.now ≤ tail_of self.old.field }
        ensures held { take self.new.filled self.new.held ≡ take self.old.filled self.old.held ++ piece.now }
        ensures filled { self.new.filled ≡ self.old.filled + length piece.now }
        ensures passed { self.new.passed ≡ self.old.passed }
        ensures stays { Stays self.old self.new }
    {
        self.held[self.filled..self.filled + piece.len()].copy_from_slice(piece);
        self.filled += piece.len();
    }

    /// The last bytes of the open field came, of which some are held.
    #[inline(never)]
    fn complete_held(&mut self, rest: &[u8]) -> Result<(), LayoutFault>
        requires { EndsField self.old rest.now }
        ensures ok { OnOk result (StandsBehind self.old self.new rest.now) }
        ensures moved { OnOk result (MovedBehind self.old self.new rest.now) }
        ensures err { IfErr result (Fails self.old rest.now) }
        ensures partial { OnOk result (IsPartial self.new) }
    {
        self.hold(rest);
        let held = self.held;
        self.complete(&held[..self.filled])
    }

    /// The last bytes of the open field came.
    #[inline(always)]
    fn complete_with(&mut self, rest: &[u8]) -> Result<(), LayoutFault>
        requires { EndsField self.old rest.now }
        ensures ok { OnOk result (StandsBehind self.old self.new rest.now) }
        ensures moved { OnOk result (MovedBehind self.old self.new rest.now) }
        ensures err { IfErr result (Fails self.old rest.now) }
        ensures partial { OnOk result (IsPartial self.new) }
    {
        if self.filled == 0 {
            return self.complete(rest);
        }
        self.complete_held(rest)
    }

    /// Passes bytes of a plane before its last word.
    fn skip(&mut self, piece: &[u8]) -> usize
        requires some { self.old.passed < skips_of self.old.field self.old.kept }
        ensures stands { (s : Seen) (b : List ℕ) → Stands self.old s b → Stands self.new s (b ++ take result piece.now) }
        ensures stays { Stays self.old self.new }
        ensures filled { self.new.filled ≡ self.old.filled }
        ensures count { result ≤ length piece.now }
        ensures progress { 0 < length piece.now → 0 < result }
        ensures all { result < length piece.now → self.new.passed ≡ skips_of self.old.field self.old.kept }
    {
        let want = skips(self.field, &self.kept) - self.passed;
        let n = std::cmp::min(want, piece.len());
        self.passed += n;
        n
    }

    /// Passes bytes of a plane before its last word, and takes that too where all of it is in the piece.
    #[inline(never)]
    fn plane(&mut self, piece: &[u8]) -> Result<(usize, bool), LayoutFault>
        requires front { IsFront self.old }
        requires some { self.old.passed < skips_of self.old.field self.old.kept }
        ensures ok { IfOk result (Advances self.old self.new piece.now) }
        ensures err { IfErr result (Fails self.old piece.now) }
    {
        let n = self.skip(piece);
        let want = tail(self.field) - self.filled;
        if piece.len() - n < want {
            return Ok((n, false));
        }
        self.complete_with(&piece[n..n + want])?;
        Ok((n + want, true))
    }

    /// Takes bytes up to the end of the open field. Answers how many, and whether it became whole.
    #[inline(always)]
    fn step(&mut self, piece: &[u8]) -> Result<(usize, bool), LayoutFault>
        requires { IsFront self.old }
        ensures ok { IfOk result (Advances self.old self.new piece.now) }
        ensures err { IfErr result (Fails self.old piece.now) }
    {
        if self.passed < skips(self.field, &self.kept) {
            return self.plane(piece);
        }
        let want = tail(self.field) - self.filled;
        if piece.len() < want {
            self.hold(piece);
            return Ok((piece.len(), false));
        }
        self.complete_with(&piece[..want])?;
        Ok((want, true))
    }

    /// `step`, which isn't copied to where this is called.
    #[inline(never)]
    fn step_apart(&mut self, piece: &[u8]) -> Result<(usize, bool), LayoutFault>
        requires { IsFront self.old }
        ensures ok { IfOk result (Advances self.old self.new piece.now) }
        ensures err { IfErr result (Fails self.old piece.now) }
    {
        self.step(piece)
    }

    /// `step`, and at an exact plane what is made for that.
    #[inline(always)]
    pub(crate) fn advance(&mut self, piece: &[u8]) -> Result<(usize, bool), LayoutFault>
        requires { IsFront self.old }
        ensures ok { IfOk result (Advances self.old self.new piece.now) }
        ensures err { IfErr result (Fails self.old piece.now) }
    {
        match self.field {
            Open::ExactPlane => self.advance_exact(piece),
            _ => self.step(piece),
        }
    }

    /// The trailer, these bytes, is whole: tests it, and closes the part.
    fn complete_trailer(&mut self, hasher: &Sha256, last: &[u8]) -> Result<(), LayoutFault>
        requires last { self.old.field ≡ Open.Trailer }
        requires passed { self.old.passed ≡ skips_of self.old.field self.old.kept }
        requires len { length last.now ≡ tail_of self.old.field }
        ensures ok { OnOk result ((s : Seen) (b : List ℕ) → Opened self.old s b → IsWhole self.old last.now b
            → Holds256 hasher.now (take self.old.at b) → Stands self.new s b) }
        ensures moved { OnOk result ((s : Seen) (b : List ℕ) → Opened self.old s b → IsWhole self.old last.now b
            → Holds256 hasher.now (take self.old.at b) → Moved true self.old self.new b) }
        ensures err { IfErr result (λ e. (s : Seen) (b x : List ℕ) → Opened self.old s b → IsWhole self.old last.now b
            → Holds256 hasher.now (take self.old.at b) → sealed (b ++ x) 0 ≡ Err e) }
        ensures done { OnOk result (self.new.field ≡ Open.Done) }
    {
        if !is_digest(hasher, last) {
            return Err(self.fault(Why::Digest));
        }
        self.open_next(last);
        Ok(())
    }

    /// Takes bytes of the trailer, the digest of all that was hashed.
    fn close(&mut self, hasher: &Sha256, piece: &[u8]) -> Result<(usize, bool), LayoutFault>
        requires last { self.old.field ≡ Open.Trailer }
        requires partial { self.old.filled < tail_of self.old.field }
        ensures ok { IfOk result (Closes self.old self.new hasher.now piece.now) }
        ensures err { IfErr result (FailsAtEnd self.old hasher.now piece.now) }
        ensures all { IfOk result (λ r. r.0 < length piece.now → self.new.field ≡ Open.Done) }
    {
        let want = TRAILER - self.filled;
        if piece.len() < want {
            self.hold(piece);
            return Ok((piece.len(), false));
        }
        self.hold(&piece[..want]);
        let held = self.held;
        self.complete_trailer(hasher, &held[..self.filled])?;
        Ok((want, true))
    }

    /// Takes bytes of the trailer, if that is open. Answers how many, and whether it became whole.
    pub(crate) fn end(
        &mut self,
        hasher: &Sha256,
        piece: &[u8],
    ) -> Result<(usize, bool), LayoutFault>
        requires partial { IsPartial self.old }
        ensures ok { IfOk result (Closes self.old self.new hasher.now piece.now) }
        ensures err { IfErr result (FailsAtEnd self.old hasher.now piece.now) }
        ensures all { IfOk result (λ r. in_front self.old.field ≡ false → r.0 < length piece.now → self.new.field ≡ Open.Done) }
    {
        match self.field {
            Open::Trailer => self.close(hasher, piece),
            _ => Ok((0, false)),
        }
    }
}
