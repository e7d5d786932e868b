ghost use Rattle.std.specs.Prelude.{◌≡◌, ◌≤◌, length, IfOk, IfErr};
ghost use Rattle.equation_core.specs.declared.hash.TheConstants.{MAX_PLANES};
ghost use Rattle.equation_core.specs.declared.sizes.TheConstants.{MAX_STARTS};
ghost use Rattle.stage_core.specs.Keys.{shape_equations};
ghost use Rattle.stage_core.specs.Built.{IsSolved, IsFirstStage};
ghost use Rattle.stage_core.specs.declared.fault.BlockFault.TheVariants.{NoMemory};

use crate::fault::BlockFault;
use crate::hashing::Hashing;
use crate::keys::{KeyTarget, Shape, add_keys};
use card_core::Stage;
use ident_core::Identity;
use ribbon_core::{Planes, System};
use std::alloc::Global;

// The least solution of each plane at one seed, if there is one.
fn solve_at<W: Hashing>(
    alloc: Global,
    hashing: &W,
    shape: Shape,
    seed: u8,
    universe: &[Identity],
    revoked: &[bool],
    passed: &[bool],
) -> Result<Option<Planes>, BlockFault>
    requires shared { W.shared hashing.now }
    requires some_starts { 1 ≤ shape.starts }
    requires few_starts { shape.starts ≤ MAX_STARTS }
    requires some { 1 ≤ shape.planes }
    requires few { shape.planes ≤ MAX_PLANES }
    requires revoked { length revoked.now ≤ length universe.now }
    requires passed { length passed.now ≤ length universe.now }
    ensures ok { IfOk result (IsSolved
        (shape_equations (W.row_of hashing.now) shape universe.now revoked.now passed.now seed)
        shape.starts
        shape.planes) }
    ensures err { IfErr result (λ e. e ≡ NoMemory) }
{
    let mut system = System::new(alloc, shape.starts, shape.planes)?;
    let Ok(()) = add_keys(alloc, hashing, &mut system, shape, seed, universe, revoked)? else {
        return Ok(None);
    };
    let zeros = Shape {
        target: KeyTarget::Zero,
        ..shape
    };
    let Ok(()) = add_keys(alloc, hashing, &mut system, zeros, seed, universe, passed)? else {
        return Ok(None);
    };
    Ok(Some(system.solve()))
}

/// The stage of the least seed at which the equations are solvable, if there is one: those of the revoked, and those of
/// the passed, whose targets are zero.
pub fn first_stage<W: Hashing>(
    alloc: Global,
    hashing: &W,
    shape: Shape,
    universe: &[Identity],
    revoked: &[bool],
    passed: &[bool],
) -> Result<Option<Stage>, BlockFault>
    requires shared { W.shared hashing.now }
    requires some_starts { 1 ≤ shape.starts }
    requires few_starts { shape.starts ≤ MAX_STARTS }
    requires some { 1 ≤ shape.planes }
    requires few { shape.planes ≤ MAX_PLANES }
    requires revoked { length revoked.now ≤ length universe.now }
    requires passed { length passed.now ≤ length universe.now }
    ensures ok { IfOk result (IsFirstStage
        (shape_equations (W.row_of hashing.now) shape universe.now revoked.now passed.now)
        shape.starts
        shape.planes) }
    ensures err { IfErr result (λ e. e ≡ NoMemory) }
{
    for number in 0..256u16 {
        let seed = number as u8;
        if let Some(planes) = solve_at(alloc, hashing, shape, seed, universe, revoked, passed)? {
            return Ok(Some(Stage { seed, planes }));
        }
    }
    Ok(None)
}
