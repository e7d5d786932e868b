ghost use Rattle.std.specs.Prelude.{◌≤◌, ℕ, IfOk, Result, length, map};
ghost use Rattle.std.specs.Borrow.{Bor};
ghost use Rattle.std.specs.Thread.{IsSync};
ghost use Rattle.ident_core.specs.declared.bounds.TheConstants.{MAX_WORKERS};
ghost use Rattle.builder_core.specs.declared.built.Built.{Built};
ghost use Rattle.builder_core.specs.declared.fault.BuildFault.{BuildFault};
ghost use Rattle.builder_core.specs.declared.task.Task.{Task};
ghost use Rattle.builder_core.specs.Tasks.{max_tasks, task_fields};
ghost use Rattle.builder_core.specs.Outcomes.{AreOutcomes, IsOutcome, IsSettled};

use crate::built::Built;
use crate::outcome::outcome_of;
use crate::task::Task;
use crate::{BuildFault, Gate};
use claim_core::{Work, claim_map, share_map};
use equation_core::EquationHash;
use octets_core::NoMemory;
use std::alloc::Global;
use std::thread::Threads;

/// How the leaves are shared among the workers.
#[derive(Clone, Copy)]
pub(crate) enum Sharing {
    /// They are cut into shares of neighbours before the work.
    Cut,
    /// Each is drawn from one counter.
    Claimed,
}

// The leaves as work, by a call that gives what comes of one. The call is a closure, since a trait's method whose
// bounds are those of an `impl` may not start threads.
#[derive(Drop)]
struct Leaves<'a, 'b, H, F> {
    hash: &'a H,
    tasks: &'a [Task<'b>],
    call: &'a F,
    ghost few: { length tasks.now ≤ max_tasks },
}

impl<'a, 'b, H: EquationHash, F: Fn(u32, &Task<'b>) -> Result<Built, BuildFault>> Work
    for Leaves<'a, 'b, H, F> {
    type Out = Result<Built, BuildFault>;

    ghost use Rattle.builder_core.specs.Outcomes.{IsOutcomeAt};

    ghost size = { λ s. length s.tasks.now };

    ghost ready = { λ s. (place : ℕ) (task : Bor Task) → F.pre s.call.now place task
        × ((r : Result Built BuildFault) → F.post s.call.now place task r → IsOutcome (H.row_of s.hash.now) (task_fields task.now) r) };

    ghost gives = { λ s place outcome. IsOutcomeAt (H.row_of s.hash.now) (map task_fields s.tasks.now) place outcome };

    fn places(&self) -> u32 {
        self.tasks.len() as u32
    }

    fn work(&self, place: u32) -> Result<Result<Built, BuildFault>, NoMemory> {
        let outcome = (self.call)(place, &self.tasks[place as usize]);
        settled(outcome)
    }
}

// What comes of a leaf, where want of memory is that of the work. It takes no memory.
fn settled(outcome: Result<Built, BuildFault>) -> Result<Result<Built, BuildFault>, NoMemory>
    ensures { IsSettled outcome result }
{
    match outcome {
        Ok(built) => Ok(Ok(built)),
        Err(fault) => match fault {
            BuildFault::SeedsExhausted { issuer, stage } => {
                Ok(Err(BuildFault::SeedsExhausted { issuer, stage }))
            }
            BuildFault::NoMemory => Err(NoMemory),
        },
    }
}

/// What comes of each leaf, in order. The workers take as many threads more as there are processors for large groups
/// that aren't cut, since these needn't be equally long.
pub(crate) fn outcomes_of<R: Threads + Sync, H: EquationHash + Sync, G: Gate + Sync>(
    rt: &R,
    alloc: Global,
    hash: &H,
    gate: &G,
    tasks: &[Task<'_>],
    workers: u32,
    sharing: Sharing,
) -> Result<Vec<Result<Built, BuildFault>>, NoMemory>
    requires few { length tasks.now ≤ max_tasks }
    requires some_workers { 1 ≤ workers }
    requires few_workers { workers ≤ MAX_WORKERS }
    ensures { IfOk result (λ v. AreOutcomes (H.row_of hash.now) (map task_fields tasks.now) v.items) }
{
    let wide = workers > 1;
    let call = |place: u32, task: &Task<'_>| -> Result<Built, BuildFault>
        requires { IsSync R.row × IsSync H.row }
        ensures { IsOutcome (H.row_of hash.entry.now) (task_fields task.entry.now) result }
    { outcome_of(rt, alloc, hash, gate, wide, place, task) };
    let jobs = Leaves {
        hash,
        tasks,
        call: &call,
    };
    match sharing {
        Sharing::Cut => share_map(rt, alloc, &jobs, workers),
        Sharing::Claimed => claim_map(rt, alloc, &jobs, workers),
    }
}
