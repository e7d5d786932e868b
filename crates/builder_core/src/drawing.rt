//! The shards of a large group's identities, drawn by several threads.

ghost use Rattle.std.specs.Prelude.{◌≡◌, ◌≤◌, length, map, IfOk};
ghost use Rattle.std.specs.List.{flat_map};
ghost use Rattle.equation_core.specs.declared.shards.TheConstants.{MAX_SHIFT};
ghost use Rattle.equation_core.specs.Shards.{shard};

use claim_core::{Work, claim_map};
use equation_core::{four_shards, shard_of};
use ident_core::Identity;
use octets_core::NoMemory;
use rayon::current_num_threads;
use std::alloc::{AllocError, Global};
use std::thread::Threads;

/// How many neighbours a thread takes at once. It is done with them within a millisecond or so, and at the end waits no
/// longer for another.
const RUN: usize = 1024;

/// The most threads that `claim_map` starts.
const MAX_THREADS: usize = 64;

/// Runs of neighbours as work, of which each gives the shards of its identities.
#[derive(Drop)]
struct Runs<'a, 'b> {
    alloc: Global,
    runs: &'a [&'b [Identity]],
    shift: u8,
    ghost few: { length runs.now ≤ 4294967295 },
    ghost low: { shift ≤ MAX_SHIFT },
}

impl<'a, 'b> Work for Runs<'a, 'b> {
    type Out = Vec<u8>;

    ghost use Rattle.builder_core.specs.Drawing.{AreDrawnAt};

    ghost size = { λ s. length s.runs.now };

    ghost ready = { λ s. Unit {0} };

    ghost gives = { λ s place shards. AreDrawnAt s.shift s.runs.now place shards };

    fn places(&self) -> u32 {
        self.runs.len() as u32
    }

    fn work(&self, place: u32) -> Result<Vec<u8>, NoMemory> {
        let shards = shards_alone(self.alloc, self.runs[place as usize], self.shift)?;
        Ok(shards)
    }
}

/// The shard of each identity. Four at a time are digested side by side.
pub(crate) fn shards_alone(
    alloc: Global,
    universe: &[Identity],
    shift: u8,
) -> Result<Vec<u8>, AllocError>
    requires { shift ≤ MAX_SHIFT }
    ensures { IfOk result (λ v. v.items ≡ map (λ x. shard x shift) universe.now) }
{
    let mut shards = Vec::with_capacity(alloc, universe.len())?;
    let fours = universe.len() / 4;
    'fours: for i in 0..fours {
        let at = 4 * i;
        let four = four_shards(
            &universe[at],
            &universe[at + 1],
            &universe[at + 2],
            &universe[at + 3],
            shift,
        );
        shards.extend_from_slice(&four)?;
    }
    'rest: for i in 4 * fours..universe.len() {
        shards.push(shard_of(&universe[i], shift))?;
    }
    Ok(shards)
}

// The identities in runs of neighbours.
fn runs_of<'a>(alloc: Global, universe: &'a [Identity]) -> Result<Vec<&'a [Identity]>, AllocError>
    ensures whole { IfOk result (λ v. flat_map (λ run. run.now) v.items ≡ universe.now) }
    ensures few { IfOk result (λ v. length v.items ≤ length universe.now) }
{
    let mut runs = Vec::with_capacity(alloc, universe.len().div_ceil(RUN))?;
    let mut rest = universe;
    'runs: while !rest.is_empty() {
        let (run, behind) = rest.split_at(rest.len().min(RUN));
        runs.push(run)?;
        rest = behind;
    }
    Ok(runs)
}

// What the runs gave, one behind the other.
fn joined(alloc: Global, count: usize, drawn: &[Vec<u8>]) -> Result<Vec<u8>, AllocError>
    ensures { IfOk result (λ v. v.items ≡ flat_map (λ shards. shards.items) drawn.now) }
{
    let mut all = Vec::with_capacity(alloc, count)?;
    for shards in drawn {
        all.extend_from_slice(shards)?;
    }
    Ok(all)
}

/// The same, by twice as many threads as there are processors: of as many the system may have two on one processor, and
/// none on another, for as long as a group takes. Each draws runs of neighbours from one counter until none is left.
pub(crate) fn shards_in_threads<R: Threads + Sync>(
    rt: &R,
    alloc: Global,
    universe: &[Identity],
    shift: u8,
) -> Result<Vec<u8>, NoMemory>
    requires low { shift ≤ MAX_SHIFT }
    requires few { length universe.now ≤ 4294967295 }
    ensures { IfOk result (λ v. v.items ≡ map (λ x. shard x shift) universe.now) }
{
    let runs = runs_of(alloc, universe)?;
    let work = Runs {
        alloc,
        runs: &runs,
        shift,
    };
    let threads = current_num_threads(rt).saturating_mul(2).min(MAX_THREADS) as u32;
    let drawn = claim_map(rt, alloc, &work, threads)?;
    let shards = joined(alloc, universe.len(), &drawn)?;
    Ok(shards)
}
