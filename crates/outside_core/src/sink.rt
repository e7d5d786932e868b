ghost use Rattle.std.specs.Prelude.{◌≡◌, ℕ, ◌≤◌, Option, List, [], Ok, OnOk, IfOk, OnErr};
ghost use Rattle.outside_core.specs.Files.{Rose};
ghost use Rattle.outside_core.specs.Written.{followed_by, Took, CutShort};

use crate::depot::Failed;
use crate::piece::next_piece;

/// A stream that is written to. What it holds may be told to contracts or not, and no call changes whether it is.
pub trait Sink {
    /// All that was written, where it is told.
    ghost written: { Self → Option (List ℕ) };
    /// How many writes have failed.
    ghost faults: { Self → ℕ };

    /// Writes a front of the bytes, and answers how many it took: of bytes that are there at least one. An empty piece
    /// is answered by `Ok(0)`, and changes nothing. After `Failed` some front was written.
    fn write(&mut self, bytes: &[u8]) -> Result<usize, Failed>
        ensures ok { IfOk result (Took (written self.old) (written self.new) bytes.now) }
        ensures err { OnErr result (CutShort (written self.old) (written self.new) bytes.now) }
        ensures cause { OnErr result (Rose (faults self.old) (faults self.new)) }
        ensures empty { bytes.now ≡ []
            → (result ≡ Ok 0) × (written self.new ≡ written self.old) × (faults self.new ≡ faults self.old) }
        ensures later { faults self.old ≤ faults self.new };
}

/// Writes all the bytes. Each call of the sink offers the next 4,096 that aren't taken, or all that are left. After
/// `Failed` some front of the bytes was written.
pub fn write_all<K: Sink>(sink: &mut K, bytes: &[u8]) -> Result<(), Failed>
    ensures ok { OnOk result (K.written sink.new ≡ followed_by (K.written sink.old) bytes.now) }
    ensures err { OnErr result (CutShort (K.written sink.old) (K.written sink.new) bytes.now) }
    ensures cause { OnErr result (Rose (K.faults sink.old) (K.faults sink.new)) }
    ensures later { K.faults sink.old ≤ K.faults sink.new }
{
    let mut done = 0;
    while done < bytes.len() {
        done += sink.write(next_piece(&bytes[done..]))?;
    }
    Ok(())
}
