ghost use Rattle.std.specs.Prelude.{◌≡◌, ◌≤◌, ◌+◌, [], ◌∷◌, List, ℕ, length, IfOk, IfErr};
ghost use Rattle.slot_core.specs.Disk.{Quiet, piece};
ghost use Rattle.slot_core.specs.Device.{magic, picks_second, IsHeader, IsSlot, BreaksAt};
ghost use Rattle.slot_core.specs.Fields.{Shows};
ghost use Rattle.slot_core.specs.Refusals.{Refuses, RefusesDevice};
ghost use Rattle.slot_core.specs.Attached.{IsPlace};

use crate::device::{FIRST_SLOT, LENGTH, MAX_CAPACITY, slot_at};
use crate::disk::Disk;
use crate::fault::SlotFault;
use crate::fields::{fill, read_number};
use crate::slots::Slots;

/// "CLUBSLOT" as a number.
const MAGIC: u64 = 0x434c_5542_534c_4f54;

/// Whether the gate picks the second slot.
fn read_gate<D: Disk>(disk: &mut D) -> Result<bool, SlotFault>
    ensures ok { IfOk result (λ second. Shows (D.state disk.old).told (λ device. (second ≡ picks_second device) × (1 ≤ length device))) }
    ensures refusal { IfErr result (λ fault.
        Refuses (λ device at. (at ≡ 0) × (length device ≡ 0)) (D.state disk.old) (D.state disk.new) fault) }
    ensures later { (D.state disk.old).faults ≤ (D.state disk.new).faults }
    ensures quiet { Quiet (D.state disk.old) (D.state disk.new) }
{
    let mut gate = [0];
    if !fill(disk, 0, &mut gate)? {
        return Err(SlotFault::BadDevice { at: 0 });
    }
    Ok(gate[0] % 2 == 1)
}

fn check_magic<D: Disk>(disk: &mut D) -> Result<(), SlotFault>
    ensures ok { IfOk result (λ _. Shows (D.state disk.old).told (λ device. piece 1 8 device ≡ magic)) }
    ensures refusal { IfErr result (λ fault.
        Refuses (λ device at. (at ≡ 1) × (piece 1 8 device ≡ magic → ⊥)) (D.state disk.old) (D.state disk.new) fault) }
    ensures later { (D.state disk.old).faults ≤ (D.state disk.new).faults }
    ensures quiet { Quiet (D.state disk.old) (D.state disk.new) }
{
    if read_number(disk, 1)? != Some(MAGIC) {
        return Err(SlotFault::BadDevice { at: 1 });
    }
    Ok(())
}

fn check_version<D: Disk>(disk: &mut D) -> Result<(), SlotFault>
    ensures ok { IfOk result (λ _. Shows (D.state disk.old).told (λ device. piece 9 1 device ≡ 1 ∷ [])) }
    ensures refusal { IfErr result (λ fault.
        Refuses (λ device at. (at ≡ 9) × (piece 9 1 device ≡ 1 ∷ [] → ⊥)) (D.state disk.old) (D.state disk.new) fault) }
    ensures later { (D.state disk.old).faults ≤ (D.state disk.new).faults }
    ensures quiet { Quiet (D.state disk.old) (D.state disk.new) }
{
    let mut version = [0];
    if !fill(disk, 9, &mut version)? || version[0] != 1 {
        return Err(SlotFault::BadDevice { at: 9 });
    }
    Ok(())
}

/// The capacity that a good header gives.
fn read_header<D: Disk>(disk: &mut D) -> Result<u64, SlotFault>
    ensures ok { IfOk result (λ capacity. Shows (D.state disk.old).told (IsHeader capacity)) }
    ensures bound { IfOk result (λ capacity. capacity ≤ MAX_CAPACITY) }
    ensures refusal { IfErr result (λ fault.
        Refuses (λ device at. 1 ≤ length device → BreaksAt device at) (D.state disk.old) (D.state disk.new) fault) }
    ensures later { (D.state disk.old).faults ≤ (D.state disk.new).faults }
    ensures quiet { Quiet (D.state disk.old) (D.state disk.new) }
{
    check_magic(disk)?;
    check_version(disk)?;
    match read_number(disk, 10)? {
        Some(capacity) if capacity >= 1 && capacity <= MAX_CAPACITY => Ok(capacity),
        _ => Err(SlotFault::BadDevice { at: 10 }),
    }
}

/// How many bytes the slot holds that stands there.
fn read_length<D: Disk>(disk: &mut D, at: u64, capacity: u64) -> Result<u64, SlotFault>
    requires low { at ≤ FIRST_SLOT + LENGTH + MAX_CAPACITY }
    requires high { capacity ≤ MAX_CAPACITY }
    ensures ok { IfOk result (λ count.
        Shows (D.state disk.old).told (λ device.
        (bytes : List ℕ) × IsSlot at capacity bytes device × (count ≡ length bytes))) }
    ensures bound { IfOk result (λ count. count ≤ capacity) }
    ensures refusal { IfErr result (λ fault.
        Refuses (λ device place. (place ≡ at) × ((bytes : List ℕ) → IsSlot at capacity bytes device → ⊥))
        (D.state disk.old) (D.state disk.new) fault) }
    ensures later { (D.state disk.old).faults ≤ (D.state disk.new).faults }
    ensures quiet { Quiet (D.state disk.old) (D.state disk.new) }
{
    let count = match read_number(disk, at)? {
        Some(count) if count <= capacity => count,
        _ => return Err(SlotFault::BadDevice { at }),
    };
    // The bytes are there where the last of them is.
    let mut last = [0];
    if count > 0 && !fill(disk, at + LENGTH + (count - 1), &mut last)? {
        return Err(SlotFault::BadDevice { at });
    }
    Ok(count)
}

/// Tests the header and the picked slot.
pub(crate) fn examine<D: Disk>(disk: &mut D) -> Result<Slots, SlotFault>
    ensures ok { IfOk result (λ slots. Shows (D.state disk.old).told (λ device. (bytes : List ℕ) × IsPlace slots bytes device)) }
    ensures refusal { IfErr result (λ fault. RefusesDevice (D.state disk.old) (D.state disk.new) fault) }
    ensures later { (D.state disk.old).faults ≤ (D.state disk.new).faults }
    ensures quiet { Quiet (D.state disk.old) (D.state disk.new) }
{
    let second = read_gate(disk)?;
    let capacity = read_header(disk)?;
    let length = read_length(disk, slot_at(capacity, second), capacity)?;
    Ok(Slots::new(capacity, second, length))
}
