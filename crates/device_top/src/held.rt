//! The store that a device holds.

ghost use Rattle.std.specs.Prelude.{◌≡◌, ◌≤◌, IfOk, IfErr};
ghost use Rattle.octets_core.specs.Reading.{GivesUnless};
ghost use Rattle.input_core.specs.Readings.{store_in};
ghost use Rattle.slot_core.specs.Disk.{Quiet};
ghost use Rattle.device_top.specs.Holding.{HeldStore, NotHeld};

use input_core::FileFault;
use slot_core::{Disk, SlotFault, Slots};
use std::alloc::Global;
use store_core::{Store, decode_store};

/// A device that was attached, and the store that its picked slot holds.
#[derive(Drop)]
pub struct AttachedStore {
    pub slots: Slots,
    pub store: Store,
}

/// Why no store was read from a device.
#[derive(Clone, Copy, Debug, PartialEq, Eq)]
pub enum HeldFault {
    /// The device isn't read.
    Slots(SlotFault),
    /// The bytes of the picked slot are no store.
    Store(FileFault),
}

impl From<SlotFault> for HeldFault {
    ghost use Rattle.device_top.specs.declared.held.HeldFault.TheVariants.{Slots as OfSlots};

    ghost from_gives = { λ f e. e ≡ OfSlots f };

    fn from(fault: SlotFault) -> HeldFault {
        HeldFault::Slots(fault)
    }
}

impl From<FileFault> for HeldFault {
    ghost use Rattle.device_top.specs.declared.held.HeldFault.TheVariants.{Store as OfStore};

    ghost from_gives = { λ f e. e ≡ OfStore f };

    fn from(fault: FileFault) -> HeldFault {
        HeldFault::Store(fault)
    }
}

/// The store of these bytes.
pub fn store_of(alloc: Global, bytes: &[u8]) -> Result<Store, FileFault>
    ensures { GivesUnless FileFault.NoMemory (λ s. s) result (store_in bytes.now) }
{
    Ok(decode_store(alloc, bytes)?)
}

/// Attaches the device, and reads the store that its picked slot holds.
pub fn held_in<D: Disk>(alloc: Global, disk: &mut D) -> Result<AttachedStore, HeldFault>
    ensures ok { IfOk result (λ held. HeldStore (D.state disk.old) (D.state disk.new) held.slots held.store) }
    ensures refusal { IfErr result (λ fault. NotHeld (D.state disk.old) (D.state disk.new) fault) }
    ensures later { (D.state disk.old).faults ≤ (D.state disk.new).faults }
    ensures quiet { Quiet (D.state disk.old) (D.state disk.new) }
{
    let slots = Slots::attach(disk)?;
    let bytes = slots.read(disk, alloc)?;
    let store = store_of(alloc, &bytes)?;
    Ok(AttachedStore { slots, store })
}
