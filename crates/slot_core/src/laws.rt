ghost use Rattle.std.specs.Prelude.{List, ℕ, IfOk};
ghost use Rattle.slot_core.specs.Disk.{Within};
ghost use Rattle.slot_core.specs.Fields.{Shows};
ghost use Rattle.slot_core.specs.Moments.{LeavesOnly};
ghost use Rattle.slot_core.specs.Attached.{IsSlotsOf, HoldsSome, HoldsStart};

use crate::disk::Disk;
use crate::fault::SlotFault;
use crate::slots::Slots;

/// Attaches, and puts these bytes in the place of those that the picked slot holds. Where each image at the start is a
/// device, a crash at any moment of it leaves a device whose picked slot holds what an image at the start held, or
/// these bytes; after `Ok` it leaves these.
pub fn attach_and_replace<D: Disk>(disk: &mut D, bytes: &[u8]) -> Result<Slots, SlotFault>
    ensures any_moment { Shows (D.state disk.old).told (λ _. Within (D.state disk.old).images HoldsSome
        → LeavesOnly (D.state disk.old) (D.state disk.new) (HoldsStart (D.state disk.old).images bytes.now)) }
    ensures ok { IfOk result (λ slots. Shows (D.state disk.old).told (λ _. IsSlotsOf (D.state disk.new) slots bytes.now)) }
{
    let slots = Slots::attach(disk)?;
    slots.replace(disk, bytes)
}
