ghost use Rattle.std.specs.Prelude.{◌≡◌, ◌≤◌, ◌<◌, [], length, Ok, OnOk, OnErr, Some, IsTrue, IsErr, IfOk};
ghost use Rattle.std.specs.Result.{is_err};
ghost use Rattle.outside_core.specs.Files.{Rose};
ghost use Rattle.outside_core.specs.Written.{Took, CutShort};
ghost use Rattle.outside_core.specs.Calls.{no_calls, is_failing, with_failing, after_call};

use crate::depot::Failed;
use crate::memory::calls::Calls;
use crate::sink::Sink;
use octets_core::NoMemory;
use std::alloc::Global;
use std::marker::Model;

/// A stream in memory. Calls of `write` are numbered from 0; a number stays at `u64::MAX` once it is there.
#[derive(Drop)]
pub struct MemorySink {
    bytes: Vec<u8>,
    writes: Calls,
}

impl Model for MemorySink {
    ghost use Rattle.outside_core.specs.View.{SinkView, sink_code};

    ghost Value = { SinkView };

    ghost coded = { sink_code };

    ghost view = { λ s. record { bytes = s.bytes.items; writes = s.writes } };
}

impl MemorySink {
    /// A sink that holds nothing and counts no fault.
    pub fn new(alloc: Global) -> MemorySink
        ensures { result ≡ record { bytes = []; writes = no_calls } }
    {
        MemorySink {
            bytes: Vec::new(alloc),
            writes: Calls::new(alloc),
        }
    }

    /// All that was written.
    pub fn bytes(&self) -> &[u8]
        ensures { result.now ≡ self.now.bytes }
    {
        &self.bytes
    }

    /// The calls of `write` with these numbers fail, in place of those of the earlier list.
    pub fn fail_writes(&mut self, calls: &[u64]) -> Result<(), NoMemory>
        ensures ok { OnOk result (self.new ≡ record self.old { writes = with_failing self.old.writes calls.now }) }
        ensures err { OnErr result (self.new ≡ self.old) }
    {
        self.writes.fail(calls)
    }
}

impl Sink for MemorySink {
    ghost written = { λ s. Some s.bytes };

    ghost faults = { λ s. s.writes.faults };

    /// Takes the whole piece. A piece with bytes fails where the number of this call is one that fails, and where the
    /// memory for it is refused; both count a fault and write nothing. An empty piece has its number and never fails.
    fn write(&mut self, bytes: &[u8]) -> Result<usize, Failed>
        // The trait's clauses.
        ensures ok { IfOk result (Took (Some self.old.bytes) (Some self.new.bytes) bytes.now) }
        ensures err { OnErr result (CutShort (Some self.old.bytes) (Some self.new.bytes) bytes.now) }
        ensures cause { OnErr result (Rose self.old.writes.faults self.new.writes.faults) }
        ensures empty { bytes.now ≡ []
            → (result ≡ Ok 0) × (Some self.new.bytes ≡ Some self.old.bytes) × (self.new.writes.faults ≡ self.old.writes.faults) }
        ensures later { self.old.writes.faults ≤ self.new.writes.faults }
        // This sink's own.
        ensures fails { IsTrue (is_failing self.old.writes) → 0 < length bytes.now → IsErr result }
        ensures whole { IfOk result (λ n. n ≡ length bytes.now) }
        ensures unchanged { OnErr result (self.new.bytes ≡ self.old.bytes) }
        ensures writes { self.new.writes ≡ after_call (is_err result) self.old.writes }
    {
        let fails = self.writes.next_fails();
        if bytes.is_empty() {
            return Ok(0);
        }
        if fails {
            return Err(self.writes.fault());
        }
        match self.bytes.extend_from_slice(bytes) {
            Ok(()) => Ok(bytes.len()),
            Err(_) => Err(self.writes.fault()),
        }
    }
}
