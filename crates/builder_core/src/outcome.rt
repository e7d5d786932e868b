ghost use Rattle.std.specs.Prelude.{◌≡◌, ◌≤◌, map, not, MatchResult};
ghost use Rattle.stage_core.specs.Built.{BuildsBlock, BuildsLeaf};
ghost use Rattle.builder_core.specs.Building.{fault_of};
ghost use Rattle.builder_core.specs.Cutting.{IsReady};
ghost use Rattle.builder_core.specs.Tasks.{others_of, revoked_of, task_fields};
ghost use Rattle.builder_core.specs.Outcomes.{BuildsTask, IsOutcome};

use crate::built::{Built, ShardLeaf};
use crate::members::members_of;
use crate::task::Task;
use crate::{BuildFault, Gate};
use card_core::{Block, Leaf};
use equation_core::EquationHash;
use octets_core::Key32;
use stage_core::{BlockFault, build_block, build_block_wide, build_leaf};
use std::alloc::Global;
use std::thread::Threads;
use universe_core::Group;

// From this many identities on a group's rows are worth several threads.
const WIDE: usize = 2048;

// The block of the group, which isn't cut, or why there is none. Where `wide` allows it the rows of a large group are
// made by several threads.
fn block_of<R: Threads + Sync, H: EquationHash + Sync>(
    rt: &R,
    alloc: Global,
    hash: &H,
    wide: bool,
    group: &Group,
) -> Result<Block, BlockFault>
    requires { IsReady group.now }
    ensures { BuildsBlock (H.row_of hash.now) group.now.issuer group.now.universe.items group.now.revoked.items result }
{
    let Group {
        issuer,
        universe,
        revoked,
    } = group;
    if wide && WIDE <= universe.len() {
        return build_block_wide(rt, alloc, hash, *issuer, universe, revoked);
    }
    build_block(alloc, hash, *issuer, universe, revoked)
}

// The leaf of a shard, or why there is none.
fn leaf_of<H: EquationHash>(alloc: Global, hash: &H, task: &Task<'_>) -> Result<Leaf, BlockFault>
    requires { 1 ≤ task.now.shift }
    ensures { BuildsLeaf (H.row_of hash.now) (revoked_of (task_fields task.now)) (others_of (task_fields task.now)) result }
{
    let (universe, revoked) = members_of(alloc, task)?;
    build_leaf(alloc, hash, &universe, &revoked)
}

fn built_of<R: Threads + Sync, H: EquationHash + Sync>(
    rt: &R,
    alloc: Global,
    hash: &H,
    wide: bool,
    task: &Task<'_>,
) -> Result<Built, BlockFault>
    ensures { BuildsTask (H.row_of hash.now) (task_fields task.now) result }
{
    let group = task.group;
    if task.shift == 0 {
        let block = block_of(rt, alloc, hash, wide, group)?;
        return Ok(Built::Block(block));
    }
    let leaf = leaf_of(alloc, hash, task)?;
    Ok(Built::Leaf(ShardLeaf {
        issuer: group.issuer,
        shift: task.shift,
        leaf,
    }))
}

// The same of a leaf of this issuer. It takes no memory.
fn of_issuer(issuer: Key32, built: Result<Built, BlockFault>) -> Result<Built, BuildFault>
    ensures { MatchResult built (λ leaf. result ≡ Ok leaf) (λ fault. result ≡ Err (fault_of issuer fault)) }
{
    match built {
        Ok(leaf) => Ok(leaf),
        Err(fault) => Err(BuildFault::new(issuer, fault)),
    }
}

/// What comes of the leaf at this place. The gate is entered before.
pub(crate) fn outcome_of<R: Threads + Sync, H: EquationHash + Sync, G: Gate + Sync>(
    rt: &R,
    alloc: Global,
    hash: &H,
    gate: &G,
    wide: bool,
    place: u32,
    task: &Task<'_>,
) -> Result<Built, BuildFault>
    ensures { IsOutcome (H.row_of hash.now) (task_fields task.now) result }
{
    gate.enter(place);
    let built = built_of(rt, alloc, hash, wide, task);
    of_issuer(task.group.issuer, built)
}
