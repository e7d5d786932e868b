ghost use Rattle.std.specs.Prelude.{◌≤◌, List, ℕ, length, not, OnOk, OnErr};
ghost use Rattle.slot_core.specs.Disk.{HasFailed, Tells, any_bytes};
ghost use Rattle.slot_core.specs.Moments.{LeavesOnly};
ghost use Rattle.slot_core.specs.Attached.{IsAttached, IsEither};

use crate::device::{MAX_CAPACITY, slot_at};
use crate::disk::Disk;
use crate::fields::write_slot;
use outside_core::Failed;

/// Writes the slot that isn't picked, and then lets the gate pick it. A crash at any moment leaves a device whose
/// picked slot holds what it held or these bytes.
pub(crate) fn switch<D: Disk>(
    disk: &mut D,
    capacity: u64,
    second: bool,
    bytes: &[u8],
) -> Result<(), Failed>
    requires bound { capacity ≤ MAX_CAPACITY }
    requires fits { length bytes.now ≤ capacity }
    ensures ok { OnOk result ((held : List ℕ) → IsAttached (D.state disk.old) capacity second held
        → IsAttached (D.state disk.new) capacity (not second) bytes.now) }
    ensures any_moment { (held : List ℕ) → IsAttached (D.state disk.old) capacity second held
        → LeavesOnly (D.state disk.old) (D.state disk.new) (IsEither capacity held bytes.now) }
    ensures told { Tells any_bytes (D.state disk.old) (D.state disk.new) }
    ensures cause { OnErr result (HasFailed (D.state disk.old) (D.state disk.new)) }
    ensures later { (D.state disk.old).faults ≤ (D.state disk.new).faults }
{
    write_slot(disk, slot_at(capacity, !second), bytes)?;
    disk.sync()?;
    let gate = if second { 0 } else { 1 };
    disk.write_at(0, &[gate])?;
    disk.sync()?;
    Ok(())
}
