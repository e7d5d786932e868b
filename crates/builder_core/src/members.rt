ghost use Rattle.std.specs.Prelude.{◌≡◌, ◌≤◌, ◌==◌, IfOk};
ghost use Rattle.equation_core.specs.Shards.{shard as shard_of};
ghost use Rattle.card_core.specs.Cutting.{flags_of};
ghost use Rattle.card_core.specs.Filter.{in_shard};

use crate::task::Task;
use ident_core::Identity;
use octets_core::NoMemory;
use std::alloc::Global;

/// The identities of a shard, and beside each whether it is revoked.
pub(crate) fn members_of(
    alloc: Global,
    task: &Task<'_>,
) -> Result<(Vec<Identity>, Vec<bool>), NoMemory>
    requires { 1 ≤ task.now.shift }
    ensures universe { IfOk result (λ r. r.0.items ≡ in_shard task.now.shift task.now.shard task.now.group.now.universe.items) }
    ensures revoked { IfOk result (λ r. r.1.items
        ≡ flags_of (λ x. shard_of x task.now.shift == task.now.shard) task.now.group.now.universe.items task.now.group.now.revoked.items) }
{
    let Task {
        group,
        shards,
        shard,
        ..
    } = *task;
    let count = shards.iter().filter(|found| **found == shard).count();
    let mut universe = Vec::with_capacity(alloc, count)?;
    let mut revoked = Vec::with_capacity(alloc, count)?;
    for (i, found) in shards.iter().enumerate() {
        if *found == shard {
            universe.push(group.universe[i])?;
            revoked.push(group.revoked[i])?;
        }
    }
    Ok((universe, revoked))
}
