ghost use Rattle.std.specs.Prelude.{◌≡◌, ◌≤◌, length, IfOk, OnOk, OnErr};
ghost use Rattle.slot_core.specs.Disk.{DiskState, IsLawful, HasFailed, Tells, Written, any_bytes, GivesPiece, IsSynced, Quiet, Tears};

use outside_core::Failed;

/// One file of bytes that a crash may tear. What it holds may be told to contracts or not, and no call changes
/// whether it is.
pub trait Disk {
    /// The bytes as they read, what a crash may leave, the time, and how many calls have failed.
    ghost state: { Self → DiskState };

    /// Reads bytes from `at` on into the front of `buf`, and answers how many. `Ok(0)` for a buffer with room is the
    /// end.
    fn read_at(&mut self, at: u64, buf: &mut [u8]) -> Result<usize, Failed>
        ensures count { IfOk result (λ n. n ≤ length buf.old) }
        ensures bytes { IfOk result (λ n. GivesPiece (state self.old).told at buf.new n) }
        ensures cause { OnErr result (HasFailed (state self.old) (state self.new)) }
        ensures later { (state self.old).faults ≤ (state self.new).faults }
        ensures quiet { Quiet (state self.old) (state self.new) };

    /// Writes over what is there and past the end. Until a sync a crash may leave any bytes in the range and past the
    /// old end.
    fn write_at(&mut self, at: u64, bytes: &[u8]) -> Result<(), Failed>
        ensures ok { OnOk result (Tells (Written at bytes.now) (state self.old) (state self.new)) }
        ensures err { OnErr result (Tells any_bytes (state self.old) (state self.new)) }
        ensures cause { OnErr result (HasFailed (state self.old) (state self.new)) }
        ensures later { (state self.old).faults ≤ (state self.new).faults }
        ensures tears { Tears at (length bytes.now) (state self.old) (state self.new) };

    /// After it a crash leaves what a read gives.
    fn sync(&mut self) -> Result<(), Failed>
        ensures ok { OnOk result (IsSynced (state self.new)) }
        ensures cause { OnErr result (HasFailed (state self.old) (state self.new)) }
        ensures later { (state self.old).faults ≤ (state self.new).faults }
        ensures quiet { Quiet (state self.old) (state self.new) };

    /// What reads give is one of the images of now, and these are the images since now.
    ghost lawful: { (disk : Self) → IsLawful (state disk) };
}
