ghost use Rattle.std.specs.Prelude.{◌≡◌, ◌≤◌, ◌<◌, length, slice_index, OnOk, IfErr, Err};
ghost use Rattle.slot_core.specs.Disk.{Tells, any_bytes, IsSynced};
ghost use Rattle.slot_core.specs.Device.{IsDevice};
ghost use Rattle.slot_core.specs.Refusals.{RefusesBytes};
ghost use Rattle.slot_core.specs.declared.fault.SlotFault.TheVariants.{TooLong};

use crate::device::{MAX_CAPACITY, slot_at};
use crate::disk::Disk;
use crate::fault::SlotFault;
use crate::fields::write_slot;

/// A gate that picks the first slot, "CLUBSLOT" and the version.
const HEAD: [u8; 10] = [0, 0x43, 0x4c, 0x55, 0x42, 0x53, 0x4c, 0x4f, 0x54, 1];

/// Makes the disk a device whose first slot holds these bytes. A crash inside it may leave anything.
pub fn format<D: Disk>(disk: &mut D, capacity: u64, store: &[u8]) -> Result<(), SlotFault>
    requires low { 1 ≤ capacity }
    requires high { capacity ≤ MAX_CAPACITY }
    ensures ok { OnOk result
        (Tells (λ _ device. IsDevice capacity store.now device × (slice_index device 0 ≡ 0)) (D.state disk.old)
        (D.state disk.new)) }
    ensures durable { OnOk result (IsSynced (D.state disk.new)) }
    ensures too_long { capacity < length store.now → (result ≡ Err (TooLong capacity)) × (disk.new ≡ disk.old) }
    ensures refusal { IfErr result (λ fault. RefusesBytes capacity (length store.now) (D.state disk.old) (D.state disk.new) fault) }
    ensures later { (D.state disk.old).faults ≤ (D.state disk.new).faults }
    ensures told { Tells any_bytes (D.state disk.old) (D.state disk.new) }
{
    if store.len() as u64 > capacity {
        return Err(SlotFault::TooLong { capacity });
    }
    disk.write_at(0, &HEAD)?;
    disk.write_at(10, &capacity.to_be_bytes())?;
    write_slot(disk, slot_at(capacity, false), store)?;
    disk.sync()?;
    Ok(())
}
