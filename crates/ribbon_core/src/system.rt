ghost use Rattle.std.specs.Prelude.{◌≡◌, ℕ, ◌+◌, ◌%◌, ◌^◌, ◌<◌, ◌≤◌, ◌↔◌, List, [], length, slice_index, OnOk, OnErr, IfOk, IsErr};
ghost use Rattle.std.specs.List.{All};
ghost use Rattle.equation_core.specs.declared.hash.TheConstants.{MAX_PLANES};
ghost use Rattle.equation_core.specs.declared.sizes.TheConstants.{MAX_STARTS};
ghost use Rattle.ribbon_core.specs.Equations.{IsAdded, IsContradicted, IsEquation, Least};
ghost use Rattle.ribbon_core.specs.Rows.{equation_with};

use crate::elimination::{Inconsistent, reduce};
use crate::places::kept_length;
use crate::planes::{KeptWords, Planes};
use crate::substitution::solve_planes;
use equation_core::{Row, words_for};
use octets_core::NoMemory;
use std::alloc::Global;
use std::marker::Model;

/// Equations over the columns of 1 to 16 planes. A coefficient serves all planes, and bit `p` of a target is for plane
/// `p`.
#[derive(Drop)]
pub struct System {
    // of each column the coefficient whose lowest one stands there, or 0, with its target
    coeffs: Vec<u128>,
    targets: Vec<u16>,
    // the counts of starts and planes, and room for the solution
    kept: Box<KeptWords>,
}

impl Model for System {
    ghost use Rattle.ribbon_core.specs.Kept.{Kept, kept_from, IsSystem};

    ghost Value = { Kept };

    ghost view = { λ s. record {
      starts = s.kept.value.starts;
      planes = s.kept.value.planes;
      equations = kept_from 0 s.coeffs.items s.targets.items;
    } };

    ghost invariant = { λ s. IsSystem s.kept.value.starts s.kept.value.planes s.coeffs.items s.targets.items s.kept.value.words.items };
}

impl System {
    /// A system that keeps no equation, with `starts + 127` columns. It takes all the memory that `add` and `solve`
    /// need: 18 bytes a column and the words of the planes.
    pub fn new(alloc: Global, starts: u32, planes: u8) -> Result<System, NoMemory>
        requires some_starts { 1 ≤ starts }
        requires few_starts { starts ≤ MAX_STARTS }
        requires some_planes { 1 ≤ planes }
        requires few_planes { planes ≤ MAX_PLANES }
        ensures { IfOk result (λ s. s ≡ record { starts = starts; planes = planes; equations = [] }) }
    {
        let columns = starts as usize + 127;
        let coeffs = vec![in alloc; 0u128; columns]?;
        let targets = vec![in alloc; 0u16; columns]?;
        let words = vec![in alloc; 0u64; kept_length(starts, planes)]?;
        let kept = KeptWords {
            starts,
            planes,
            words,
        };
        let kept = Box::new(alloc, kept)?;
        Ok(System {
            coeffs,
            targets,
            kept,
        })
    }

    /// Keeps one equation more in each plane. What is kept are equations with the same solutions, maybe not the given
    /// ones. The tag of the row is not looked at.
    pub fn add(&mut self, row: &Row, target: u16) -> Result<(), Inconsistent>
        requires start { row.now.start < self.old.starts }
        requires odd { row.now.coeff % 2 ≡ 1 }
        requires few_planes { target < 2 ^ self.old.planes }
        ensures starts { self.new.starts ≡ self.old.starts }
        ensures planes { self.new.planes ≡ self.old.planes }
        ensures formed { All (IsEquation (self.new.starts + 127)) self.new.equations }

        ensures inconsistent { IsErr result ↔ IsContradicted self.old.planes self.old.equations (equation_with target row.now) }
        ensures err { OnErr result (self.new ≡ self.old) }
        ensures ok { OnOk result (IsAdded self.old.equations (equation_with target row.now) self.new.equations) }
    {
        let Row { start, coeff, .. } = *row;
        reduce(
            &mut self.coeffs,
            &mut self.targets,
            self.kept.planes,
            start as usize,
            coeff,
            target,
        )
    }

    /// The least solution of each plane. There is one, since `add` keeps no equation that contradicts the others.
    pub fn solve(self) -> Planes
        ensures starts { result.starts ≡ self.starts }
        ensures planes { length result.columns ≡ self.planes }
        ensures formed { All (IsEquation (self.starts + 127)) self.equations }
        ensures least { (plane : ℕ) → plane < self.planes → Least plane self.equations (slice_index result.columns plane) }
    {
        let System {
            coeffs,
            targets,
            mut kept,
        } = self;
        let width = words_for(kept.starts);
        solve_planes(&coeffs, &targets, kept.planes, width, &mut kept.words);
        Planes::from_kept(kept)
    }
}
