ghost use Rattle.std.specs.Prelude.{◌≡◌, ◌++◌, map, IfOk, OnOk};
ghost use Rattle.std.specs.List.{flat_map};
ghost use Rattle.builder_core.specs.Tasks.{task_fields, tasks_of_cut};

use crate::task::{Cut, Task};
use octets_core::NoMemory;
use std::alloc::Global;

// The leaves of a group behind those of the groups before.
fn push_tasks<'a>(tasks: &mut Vec<Task<'a>>, cut: &'a Cut<'_>) -> Result<(), NoMemory>
    ensures { OnOk result (map task_fields tasks.new.items ≡ map task_fields tasks.old.items ++ tasks_of_cut cut.now) }
{
    for shard in 0..1u32 << cut.shift {
        tasks.push(Task {
            group: cut.group,
            shift: cut.shift,
            shards: &cut.shards,
            shard: shard as u8,
        })?;
    }
    Ok(())
}

/// The leaves of all groups, in the order of their issuers and then of their shards.
pub(crate) fn tasks_of<'a>(alloc: Global, cuts: &'a [Cut<'_>]) -> Result<Vec<Task<'a>>, NoMemory>
    ensures { IfOk result (λ v. map task_fields v.items ≡ flat_map tasks_of_cut cuts.now) }
{
    let mut tasks = Vec::with_capacity(alloc, cuts.len())?;
    for cut in cuts {
        push_tasks(&mut tasks, cut)?;
    }
    Ok(tasks)
}
