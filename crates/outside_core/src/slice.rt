//! A depot over bytes that stand in memory.

ghost use Rattle.std.specs.Prelude.{◌≡◌, ◌<◌, ◌^◌, Some, [], None, length};
ghost use Rattle.std.specs.FinMap.{insert, empty};

use crate::depot::{Depot, Failed};
use crate::piece::copy_from;

/// Holds the bytes under the empty name, and no other name. It can't be written.
#[derive(Drop)]
pub struct SliceDepot<'a> {
    bytes: &'a [u8],
    refused: u64,
}

impl<'a> SliceDepot<'a> {
    /// A depot that holds these bytes.
    pub fn new(bytes: &'a [u8]) -> SliceDepot<'a>
        ensures bytes { result.bytes.now ≡ bytes.now }
        ensures bound { length bytes.now < 2 ^ 64 }
    {
        SliceDepot { bytes, refused: 0 }
    }
}

impl<'a> Depot for SliceDepot<'a> {
    ghost files = { λ d. Some (insert empty [] d.bytes.now) };

    ghost read_faults = { λ _. 0 };

    ghost failed_reads = { λ _. None };

    ghost write_faults = { λ d. d.refused };

    fn read_at(&mut self, name: &str, at: u64, buf: &mut [u8]) -> Result<usize, Failed> {
        if !name.is_empty() {
            return Err(Failed);
        }
        Ok(copy_from(self.bytes, at, buf))
    }

    fn begin(&mut self, _name: &str) -> Result<(), Failed> {
        self.refused = self.refused.saturating_add(1);
        Err(Failed)
    }

    fn append(&mut self, _name: &str, bytes: &[u8]) -> Result<usize, Failed> {
        if bytes.is_empty() {
            return Ok(0);
        }
        self.refused = self.refused.saturating_add(1);
        Err(Failed)
    }
}
