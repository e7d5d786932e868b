ghost use Rattle.std.specs.Prelude.{◌≡◌, ◌≤◌, ◌<◌, ◌⊎◌, List, ℕ, length, not, IfOk, IfErr, Err};
ghost use Rattle.slot_core.specs.Disk.{Quiet, Tells, any_bytes};
ghost use Rattle.slot_core.specs.Device.{IsDevice, BreaksAt};
ghost use Rattle.slot_core.specs.Fields.{Shows};
ghost use Rattle.slot_core.specs.Refusals.{RefusesDevice, RefusesBytes, RefusesRead};
ghost use Rattle.slot_core.specs.Moments.{LeavesOnly};
ghost use Rattle.slot_core.specs.declared.fault.SlotFault.TheVariants.{BadDevice, TooLong, DiskFault};

use crate::device::{LENGTH, MAX_CAPACITY, slot_at};
use crate::disk::Disk;
use crate::examine::examine;
use crate::fault::SlotFault;
use crate::fields::fill;
use crate::switch::switch;
use std::alloc::Global;
use std::marker::Model;

/// A device whose header and picked slot have passed their tests: its capacity, which slot the gate picks, and how many
/// bytes that slot holds.
#[derive(Drop)]
pub struct Slots {
    capacity: u64,
    second: bool,
    length: u64,
}

impl Model for Slots {
    ghost use Rattle.std.specs.Prelude.{◌≤◌};
    ghost use Rattle.slot_core.specs.declared.device.TheConstants.{MAX_CAPACITY};
    ghost use Rattle.slot_core.specs.View.{SlotsView, slots_code};

    ghost Value = { SlotsView };

    ghost coded = { slots_code };

    ghost view = { λ s. record { capacity = s.capacity; second = s.second; length = s.length } };

    ghost invariant = { λ s. (s.length ≤ s.capacity) × (s.capacity ≤ MAX_CAPACITY) };
}

impl Slots {
    ghost use Rattle.slot_core.specs.Attached.{IsSlotsOf, IsEither};

    /// What tests have shown of a device.
    pub(crate) fn new(capacity: u64, second: bool, length: u64) -> Slots
        requires bound { capacity ≤ MAX_CAPACITY }
        requires within { length ≤ capacity }
        ensures { result ≡ record { capacity = capacity; second = second; length = length } }
    {
        Slots {
            capacity,
            second,
            length,
        }
    }

    /// Syncs first, and then tests the header and the picked slot.
    pub fn attach<D: Disk>(disk: &mut D) -> Result<Slots, SlotFault>
        ensures ok { IfOk result (λ slots.
            Shows (D.state disk.old).told (λ _. (bytes : List ℕ) × IsSlotsOf (D.state disk.new) slots bytes)) }
        ensures refusal { IfErr result (λ fault. RefusesDevice (D.state disk.old) (D.state disk.new) fault) }
        ensures broken { (at : ℕ)
            → Shows (D.state disk.old).told (λ device. BreaksAt device at → (result ≡ Err (BadDevice at)) ⊎ (result ≡ Err DiskFault)) }
        ensures whole { (capacity : ℕ) (bytes : List ℕ)
            → Shows (D.state disk.old).told (λ device. IsDevice capacity bytes device → IfErr result (λ fault. fault ≡ DiskFault)) }
        ensures later { (D.state disk.old).faults ≤ (D.state disk.new).faults }
        ensures quiet { Quiet (D.state disk.old) (D.state disk.new) }
    {
        disk.sync()?;
        examine(disk)
    }

    /// The bytes of the picked slot.
    pub fn read<D: Disk>(&self, disk: &mut D, alloc: Global) -> Result<Vec<u8>, SlotFault>
        ensures ok { IfOk result (λ v. (bytes : List ℕ) → IsSlotsOf (D.state disk.old) self.now bytes → v.items ≡ bytes) }
        ensures refusal { IfErr result (λ fault. RefusesRead self.now (D.state disk.old) (D.state disk.new) fault) }
        ensures later { (D.state disk.old).faults ≤ (D.state disk.new).faults }
        ensures quiet { Quiet (D.state disk.old) (D.state disk.new) }
    {
        let at = slot_at(self.capacity, self.second);
        let mut bytes = vec![in alloc; 0; self.length as usize]?;
        if !fill(disk, at + LENGTH, &mut bytes)? {
            return Err(SlotFault::BadDevice { at });
        }
        Ok(bytes)
    }

    /// Puts these bytes in the place of those that the picked slot holds. A crash at any moment leaves the one or the
    /// other. After a refusal but `TooLong` the disk is attached again.
    pub fn replace<D: Disk>(self, disk: &mut D, bytes: &[u8]) -> Result<Slots, SlotFault>
        ensures ok { IfOk result (λ after.
            (held : List ℕ) → IsSlotsOf (D.state disk.old) self held → IsSlotsOf (D.state disk.new) after bytes.now) }
        ensures turned { IfOk result (λ after.
            after ≡ record { capacity = self.capacity; second = not self.second; length = length bytes.now }) }
        ensures any_moment { (held : List ℕ) → IsSlotsOf (D.state disk.old) self held
            → LeavesOnly (D.state disk.old) (D.state disk.new) (IsEither self.capacity held bytes.now) }
        ensures too_long { self.capacity < length bytes.now → (result ≡ Err (TooLong self.capacity)) × (disk.new ≡ disk.old) }
        ensures refusal { IfErr result (λ fault.
            RefusesBytes self.capacity (length bytes.now) (D.state disk.old) (D.state disk.new) fault) }
        ensures later { (D.state disk.old).faults ≤ (D.state disk.new).faults }
        ensures told { Tells any_bytes (D.state disk.old) (D.state disk.new) }
    {
        let capacity = self.capacity;
        let second = self.second;
        let length = bytes.len() as u64;
        if length > capacity {
            return Err(SlotFault::TooLong { capacity });
        }
        switch(disk, capacity, second, bytes)?;
        Ok(Slots::new(capacity, !second, length))
    }
}
