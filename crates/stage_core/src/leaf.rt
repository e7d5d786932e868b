ghost use Rattle.std.specs.Prelude.{◌≡◌, ◌≤◌, ◌+◌, length, map, filter, not};
ghost use Rattle.ident_core.specs.declared.bounds.TheConstants.{MAX_IDENTITIES};
ghost use Rattle.card_core.specs.Leaf.{flagged};
ghost use Rattle.stage_core.specs.Built.{BuildsLeaf, BuildsApprox, BuildsExact};

use crate::fault::BlockFault;
use crate::hashing::Hashing;
use crate::keys::{KeyTarget, Shape};
use crate::seeds::first_stage;
use crate::width::width_for;
use card_core::{Leaf, Mixed, Stage};
use equation_core::starts_for;
use ident_core::Identity;
use std::alloc::Global;

// How many flags are set.
fn count(flags: &[bool]) -> usize
    ensures value { result ≡ length (filter (λ flag. flag) flags.now) }
    ensures few { result ≤ length flags.now }
{
    flags.iter().filter(|flag| **flag).count()
}

fn approx_of<W: Hashing>(
    alloc: Global,
    hashing: &W,
    universe: &[Identity],
    revoked: &[bool],
) -> Result<Option<Stage>, BlockFault>
    requires shared { W.shared hashing.now }
    requires flags { length revoked.now ≡ length universe.now }
    requires few { length universe.now ≤ MAX_IDENTITIES }
    ensures { BuildsApprox (W.row_of hashing.now) (flagged universe.now revoked.now) (flagged universe.now (map not revoked.now)) result }
{
    let keys = count(revoked);
    let planes = width_for(keys as u32, (universe.len() - keys) as u32);
    if planes == 0 {
        return Ok(None);
    }
    let shape = Shape {
        stage: 1,
        target: KeyTarget::Tag,
        planes,
        starts: starts_for(keys as u32),
    };
    match first_stage(alloc, hashing, shape, universe, revoked, &[])? {
        Some(stage) => Ok(Some(stage)),
        None => Err(BlockFault::SeedsExhausted { stage: 1 }),
    }
}

fn exact_of<W: Hashing>(
    alloc: Global,
    hashing: &W,
    universe: &[Identity],
    revoked: &[bool],
    passed: &[bool],
) -> Result<Stage, BlockFault>
    requires shared { W.shared hashing.now }
    requires revoked { length revoked.now ≡ length universe.now }
    requires passed { length passed.now ≡ length universe.now }
    requires few { length (flagged universe.now revoked.now) + length (flagged universe.now passed.now) ≤ MAX_IDENTITIES }
    ensures { BuildsExact (W.row_of hashing.now) (flagged universe.now revoked.now) (flagged universe.now passed.now) result }
{
    let keys = count(revoked) + count(passed);
    let shape = Shape {
        stage: 2,
        target: KeyTarget::One,
        planes: 1,
        starts: starts_for(keys as u32),
    };
    match first_stage(alloc, hashing, shape, universe, revoked, passed)? {
        Some(stage) => Ok(stage),
        None => Err(BlockFault::SeedsExhausted { stage: 2 }),
    }
}

// The leaf of a universe of which some are revoked and some are not.
fn mixed_of<W: Hashing>(
    alloc: Global,
    hashing: &W,
    universe: &[Identity],
    revoked: &[bool],
) -> Result<Leaf, BlockFault>
    requires shared { W.shared hashing.now }
    requires flags { length revoked.now ≡ length universe.now }
    requires few { length universe.now ≤ MAX_IDENTITIES }
    requires some_revoked { 1 ≤ length (flagged universe.now revoked.now) }
    requires some_others { 1 ≤ length (flagged universe.now (map not revoked.now)) }
    ensures { BuildsLeaf (W.row_of hashing.now) (flagged universe.now revoked.now) (flagged universe.now (map not revoked.now)) result }
{
    let approx = approx_of(alloc, hashing, universe, revoked)?;
    let passed = hashing.passed(alloc, &approx, universe, revoked)?;
    let exact = exact_of(alloc, hashing, universe, revoked, &passed)?;
    Ok(Leaf::Mixed(Mixed::new(approx, exact)))
}

/// The leaf of a universe.
pub fn leaf_of<W: Hashing>(
    alloc: Global,
    hashing: &W,
    universe: &[Identity],
    revoked: &[bool],
) -> Result<Leaf, BlockFault>
    requires shared { W.shared hashing.now }
    requires flags { length revoked.now ≡ length universe.now }
    requires few { length universe.now ≤ MAX_IDENTITIES }
    ensures { BuildsLeaf (W.row_of hashing.now) (flagged universe.now revoked.now) (flagged universe.now (map not revoked.now)) result }
{
    let keys = count(revoked);
    if keys == 0 {
        return Ok(Leaf::Clean);
    }
    if keys == universe.len() {
        return Ok(Leaf::Every);
    }
    mixed_of(alloc, hashing, universe, revoked)
}
