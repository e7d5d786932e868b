ghost use Rattle.std.specs.Prelude.{◌≡◌, ◌≤◌, ◌<◌, ◌+◌, ◌^◌, length, IfOk, OnOk, OnErr, IfSome};
ghost use Rattle.std.specs.Int.{w64, to_be_bytes};
ghost use Rattle.slot_core.specs.Disk.{HasFailed, Quiet, Tells, any_bytes, Tears};
ghost use Rattle.slot_core.specs.Fields.{Fills, ReadsNumber, WritesSlot};

use crate::device::LENGTH;
use crate::disk::Disk;
use outside_core::Failed;

/// Fills the buffer with the bytes from `at` on; `false` where there are too few.
pub(crate) fn fill<D: Disk>(disk: &mut D, at: u64, buf: &mut [u8]) -> Result<bool, Failed>
    requires { at + length buf.old < 2 ^ 64 }
    ensures bytes { IfOk result (λ whole. Fills (D.state disk.old).told at buf.new whole) }
    ensures cause { OnErr result (HasFailed (D.state disk.old) (D.state disk.new)) }
    ensures later { (D.state disk.old).faults ≤ (D.state disk.new).faults }
    ensures quiet { Quiet (D.state disk.old) (D.state disk.new) }
{
    let mut done = 0;
    while done < buf.len() {
        let count = disk.read_at(at + done as u64, &mut buf[done..])?;
        if count == 0 {
            return Ok(false);
        }
        done += count;
    }
    Ok(true)
}

/// The number that the bytes spell, greatest first.
fn spelled(bytes: &[u8; 8]) -> u64
    ensures { bytes.now ≡ to_be_bytes w64 result }
{
    u64::from_be_bytes(*bytes)
}

/// The number in the eight bytes from `at` on; `None` where there are too few.
pub(crate) fn read_number<D: Disk>(disk: &mut D, at: u64) -> Result<Option<u64>, Failed>
    requires { at + 8 < 2 ^ 64 }
    ensures number { IfOk result (λ number. ReadsNumber (D.state disk.old).told at number) }
    ensures fits { IfOk result (λ number. IfSome number (λ n. n < 2 ^ 64)) }
    ensures cause { OnErr result (HasFailed (D.state disk.old) (D.state disk.new)) }
    ensures later { (D.state disk.old).faults ≤ (D.state disk.new).faults }
    ensures quiet { Quiet (D.state disk.old) (D.state disk.new) }
{
    let mut bytes = [0; 8];
    if fill(disk, at, &mut bytes)? {
        Ok(Some(spelled(&bytes)))
    } else {
        Ok(None)
    }
}

/// Writes the length of the bytes and the bytes behind it, as one write would.
pub(crate) fn write_slot<D: Disk>(disk: &mut D, at: u64, bytes: &[u8]) -> Result<(), Failed>
    requires { at + 8 < 2 ^ 64 }
    ensures ok { OnOk result (Tells (WritesSlot at bytes.now) (D.state disk.old) (D.state disk.new)) }
    ensures err { OnErr result (Tells any_bytes (D.state disk.old) (D.state disk.new)) }
    ensures cause { OnErr result (HasFailed (D.state disk.old) (D.state disk.new)) }
    ensures later { (D.state disk.old).faults ≤ (D.state disk.new).faults }
    ensures tears { Tears at (LENGTH + length bytes.now) (D.state disk.old) (D.state disk.new) }
{
    let length = bytes.len() as u64;
    disk.write_at(at, &length.to_be_bytes())?;
    disk.write_at(at + LENGTH, bytes)?;
    Ok(())
}
