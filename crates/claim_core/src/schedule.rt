ghost use Rattle.std.specs.Prelude.{◌≡◌, length, map, IfOk};
ghost use Rattle.claim_core.specs.Schedule.{draws, DrawsAreEachOnce, IsEachOnceBelow};
ghost use Rattle.claim_core.specs.Played.{SeatsDrawTheSchedule};

use octets_core::NoMemory;
use std::alloc::Global;

/// A number, and the worker that drew it.
#[derive(Clone, Copy, Debug, PartialEq, Eq)]
pub struct Draw {
    pub worker: u32,
    pub number: u64,
}

/// The draws of a schedule: step t gives t to its worker.
pub fn replay(alloc: Global, schedule: &[u32]) -> Result<Vec<Draw>, NoMemory>
    ensures draws { IfOk result (λ v. v.items ≡ draws schedule.now) }
    ensures workers { IfOk result (λ v. map (λ d. d.worker) v.items ≡ schedule.now) }
    ensures each_once { IfOk result (λ v. IsEachOnceBelow (length schedule.now) (map (λ d. d.number) v.items)) }
{
    let mut taken = Vec::new(alloc);
    let mut number = 0;
    for worker in schedule {
        taken.push(Draw {
            worker: *worker,
            number,
        })?;
        number += 1;
    }
    Ok(taken)
}

/// For every schedule, the draws are the numbers below its length, each once.
pub fn draws_are_each_once()
    ensures { DrawsAreEachOnce }
{}

/// Whatever the order in which seats draw under the rule of the counter, each gets the remainders of what the schedule
/// of their turns gives to it, and the rule holds after the last draw.
pub fn seats_draw_the_schedule()
    ensures { SeatsDrawTheSchedule }
{}
