ghost use Rattle.std.specs.Prelude.{◌≡◌, ◌≤◌, ◌<◌, ◌+◌, ◌-◌, ◌^◌, ◌⊎◌, [], length, drop, IsOk, OnOk, OnErr};
ghost use Rattle.outside_core.specs.Reads.{ReadFailed};
ghost use Rattle.outside_core.specs.Effects.{OnlyReads};
ghost use Rattle.outside_core.specs.Feeding.{InOrder, Offers, most_at_once};

use crate::depot::{Depot, Failed};
use std::marker::Model;

/// How many bytes a window can hold.
const ROOM: usize = 4096;

/// The bytes of a file that were read and aren't taken.
#[derive(Drop)]
pub struct Window {
    buffer: [u8; ROOM],
    start: usize,
    end: usize,
}

impl Model for Window {
    ghost use Rattle.std.specs.Prelude.{List, ℕ, ◌≤◌};
    ghost use Rattle.outside_core.specs.Feeding.{untaken, most_at_once};

    ghost Value = { List ℕ };

    ghost view = { λ w. untaken w.buffer w.start w.end };

    ghost invariant = { λ w. (w.start ≤ w.end) × (w.end ≤ most_at_once) };
}

impl Window {
    pub fn new() -> Window
        ensures { result ≡ [] }
    {
        Window {
            buffer: [0; ROOM],
            start: 0,
            end: 0,
        }
    }

    pub fn as_slice(&self) -> &[u8]
        ensures value { result.now ≡ self.now }
        ensures bound { length result.now ≤ most_at_once }
    {
        &self.buffer[self.start..self.end]
    }

    /// Drops bytes from the front.
    pub fn consume(&mut self, n: usize)
        requires { n ≤ length self.old }
        ensures { self.new ≡ drop n self.old }
    {
        self.start += n;
    }

    /// Reads the next piece of the file, by one read, unless bytes are left or the last offset is reached.
    pub fn fill_from<D: Depot>(&mut self, depot: &mut D, name: &str, at: u64) -> Result<(), Failed>
        requires { at + length self.old < 2 ^ 64 }
        ensures fits { at + length self.new < 2 ^ 64 }
        ensures ok { OnOk result (InOrder (D.files depot.old) name.now at self.old → Offers (D.files depot.old) name.now at self.new) }
        ensures err { OnErr result (self.new ≡ self.old) }
        ensures kept { (0 < length self.old) ⊎ (at ≡ 2 ^ 64 - 1) → IsOk result × (self.new ≡ self.old) × (depot.new ≡ depot.old) }
        ensures cause { OnErr result (ReadFailed D.Depot name.now depot.old depot.new) }
        ensures unblamed { OnOk result (D.failed_reads depot.new ≡ D.failed_reads depot.old) }
        ensures only_reads { OnlyReads D.Depot depot.old depot.new }
    {
        if self.start < self.end || at == u64::MAX {
            return Ok(());
        }
        // No byte is asked for past the last offset.
        let room = (u64::MAX - at).min(ROOM as u64) as usize;
        let count = depot.read_at(name, at, &mut self.buffer[..room])?;
        self.start = 0;
        self.end = count;
        Ok(())
    }
}
