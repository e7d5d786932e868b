ghost use Rattle.std.specs.Prelude.{◌≡◌, ◌≤◌, ◌↔◌, ℕ, All, length, OnOk, OnErr, IfOk, IfErr};
ghost use Rattle.equation_core.specs.declared.hash.TheConstants.{MAX_PLANES};
ghost use Rattle.equation_core.specs.Rows.{IsRow};
ghost use Rattle.ribbon_core.specs.Equations.{SolvesAll};
ghost use Rattle.stage_core.specs.Keys.{Adds, flagged_equations, row_equations, HasNoSolution};
ghost use Rattle.stage_core.specs.declared.fault.BlockFault.TheVariants.{NoMemory};

use crate::fault::BlockFault;
use crate::hashing::Hashing;
use equation_core::Row;
use ident_core::Identity;
use ribbon_core::{Inconsistent, System};
use std::alloc::Global;

/// The target of a key's equation in each plane: a bit of its row's tag, or one, or zero.
#[derive(Clone, Copy)]
pub enum KeyTarget {
    Tag,
    One,
    Zero,
}

/// A stage: its number, the target of its keys, and its planes and starts.
#[derive(Clone, Copy)]
pub struct Shape {
    pub stage: u8,
    pub target: KeyTarget,
    pub planes: u8,
    pub starts: u32,
}

impl KeyTarget {
    ghost use Rattle.std.specs.Prelude.{◌≡◌, ◌<◌, ◌≤◌, ◌^◌};
    ghost use Rattle.stage_core.specs.Keys.{target_of};

    // The targets of all planes, a bit each.
    fn bits(self, row: &Row, planes: u8) -> u16
        requires some { 1 ≤ planes }
        requires few { planes ≤ MAX_PLANES }
        ensures value { result ≡ target_of self planes row.now }
        ensures few { result < 2 ^ planes }
    {
        match self {
            KeyTarget::Tag => (u32::from(row.tag) % (1u32 << planes)) as u16,
            KeyTarget::One => 1,
            KeyTarget::Zero => 0,
        }
    }
}

/// Adds the equation of each row.
pub fn add_rows(
    system: &mut System,
    target: KeyTarget,
    planes: u8,
    rows: &[Row],
) -> Result<(), Inconsistent>
    requires rows { All (IsRow system.old.starts) rows.now }
    requires planes { system.old.planes ≡ planes }
    requires some { 1 ≤ planes }
    requires few { planes ≤ MAX_PLANES }
    ensures starts { system.new.starts ≡ system.old.starts }
    ensures planes { system.new.planes ≡ system.old.planes }
    ensures ok { OnOk result ((plane Z : ℕ) → SolvesAll plane system.new.equations Z
        ↔ (SolvesAll plane system.old.equations Z × SolvesAll plane (row_equations target planes rows.now) Z)) }
    ensures err { OnErr result (HasNoSolution planes system.old.equations (row_equations target planes rows.now)) }
{
    for row in rows {
        system.add(row, target.bits(row, planes))?;
    }
    Ok(())
}

/// Adds the equation of each identity whose flag is set. The rows of all are made first.
pub fn add_keys<W: Hashing>(
    alloc: Global,
    hashing: &W,
    system: &mut System,
    shape: Shape,
    seed: u8,
    universe: &[Identity],
    flags: &[bool],
) -> Result<Result<(), Inconsistent>, BlockFault>
    requires shared { W.shared hashing.now }
    requires starts { system.old.starts ≡ shape.starts }
    requires some_starts { 1 ≤ shape.starts }
    requires planes { system.old.planes ≡ shape.planes }
    requires some { 1 ≤ shape.planes }
    requires few { shape.planes ≤ MAX_PLANES }
    requires flags { length flags.now ≤ length universe.now }
    ensures starts { system.new.starts ≡ system.old.starts }
    ensures planes { system.new.planes ≡ system.old.planes }
    ensures ok { IfOk result (Adds shape.planes system.old.equations
        (flagged_equations (W.row_of hashing.now) shape seed universe.now flags.now)
        system.new.equations) }
    ensures err { IfErr result (λ e. e ≡ NoMemory) }
{
    let rows = hashing.rows(alloc, shape, seed, universe, flags)?;
    Ok(add_rows(system, shape.target, shape.planes, &rows))
}
