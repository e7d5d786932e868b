ghost use Rattle.std.specs.Prelude.{◌≡◌, ◌≤◌, ◌<◌, ◌⊎◌, List, ℕ, [], length, Some, IsSome, Ok, IsOk, IsErr, IfOk, OnOk, OnErr, IsTrue};
ghost use Rattle.std.specs.Bool.{OnFalse};
ghost use Rattle.std.specs.Option.{option_copied};
ghost use Rattle.std.specs.Result.{result_ok, is_err};
ghost use Rattle.std.specs.FinMap.{get, insert, empty};
ghost use Rattle.outside_core.specs.Files.{Rose, IsMissing, Gives, Appended, Torn, putting, extending};
ghost use Rattle.outside_core.specs.Calls.{no_calls, is_failing, with_failing, after_call};
ghost use Rattle.outside_core.specs.View.{read_count, read_fails};

use crate::depot::{Depot, Failed};
use crate::memory::calls::Calls;
use crate::memory::entries::{Entry, add, place, put};
use crate::piece::copy_from;
use octets_core::NoMemory;
use std::alloc::Global;
use std::marker::Model;

/// Files in memory. Calls of `read_at` are numbered from 0, and calls of `begin` and `append` together from 0; a
/// number stays at `u64::MAX` once it is there.
#[derive(Drop)]
pub struct MemoryDepot {
    alloc: Global,
    entries: Vec<Entry>,
    reads: Calls,
    writes: Calls,
}

impl Model for MemoryDepot {
    ghost use Rattle.outside_core.specs.Entries.{files_of};
    ghost use Rattle.outside_core.specs.View.{DepotView, depot_code};

    ghost Value = { DepotView };

    ghost coded = { depot_code };

    ghost view = { λ d. record { files = files_of d.entries.items; reads = d.reads; writes = d.writes } };
}

impl MemoryDepot {
    /// A depot that holds no name and counts no fault.
    pub fn new(alloc: Global) -> MemoryDepot
        ensures { result ≡ record { files = empty; reads = no_calls; writes = no_calls } }
    {
        MemoryDepot {
            alloc,
            entries: Vec::new(alloc),
            reads: Calls::new(alloc),
            writes: Calls::new(alloc),
        }
    }

    /// Makes the name hold the bytes. This is no call of the depot's trait: it has no number and counts no fault.
    pub fn put(&mut self, name: &str, bytes: &[u8]) -> Result<(), NoMemory>
        ensures ok { OnOk result (self.new ≡ record self.old { files = insert self.old.files name.now bytes.now }) }
        ensures err { OnErr result (self.new ≡ self.old) }
    {
        let held = bytes.to_vec(self.alloc)?;
        put(self.alloc, &mut self.entries, name, held)
    }

    /// What the name holds; `None` where it isn't held.
    pub fn bytes_of(&self, name: &str) -> Option<&[u8]>
        ensures { option_copied result ≡ get self.now.files name.now }
    {
        match place(&self.entries, name) {
            Some(i) => Some(self.entries[i].bytes.as_slice()),
            None => None,
        }
    }

    /// The calls of `read_at` with these numbers fail, in place of those of the earlier list.
    pub fn fail_reads(&mut self, calls: &[u64]) -> Result<(), NoMemory>
        ensures ok { OnOk result (self.new ≡ record self.old { reads = with_failing self.old.reads calls.now }) }
        ensures err { OnErr result (self.new ≡ self.old) }
    {
        self.reads.fail(calls)
    }

    /// The calls of `begin` and `append` with these numbers fail, in place of those of the earlier list.
    pub fn fail_writes(&mut self, calls: &[u64]) -> Result<(), NoMemory>
        ensures ok { OnOk result (self.new ≡ record self.old { writes = with_failing self.old.writes calls.now }) }
        ensures err { OnErr result (self.new ≡ self.old) }
    {
        self.writes.fail(calls)
    }
}

impl Depot for MemoryDepot {
    ghost use Rattle.std.specs.Prelude.{None};

    ghost files = { λ d. Some d.files };

    ghost read_faults = { λ d. d.reads.faults };

    ghost failed_reads = { λ _. None };

    ghost write_faults = { λ d. d.writes.faults };

    /// Fails where the name isn't held, which counts no fault, and where the number of this call is one that fails.
    /// Else it fills as much of the buffer as the file gives.
    fn read_at(&mut self, name: &str, at: u64, buf: &mut [u8]) -> Result<usize, Failed>
        // The trait's clauses.
        ensures count { IfOk result (λ n. n ≤ length buf.old) }
        ensures bytes { IfOk result (λ n. Gives (Some self.old.files) name.now at buf.new n) }
        ensures cause { OnErr result (Rose self.old.reads.faults self.new.reads.faults ⊎ IsMissing (Some self.old.files) name.now) }
        ensures missing { IsMissing (Some self.old.files) name.now → self.new.reads.faults ≡ self.old.reads.faults }
        ensures later { self.old.reads.faults ≤ self.new.reads.faults }
        ensures same_files { Some self.new.files ≡ Some self.old.files }
        ensures same_writes { self.new.writes.faults ≡ self.old.writes.faults }
        // This depot's own.
        ensures answer { result_ok result ≡ read_count self.old name.now at (length buf.old) }
        ensures leaves { self.new ≡ record self.old { reads = after_call (read_fails self.old name.now) self.old.reads } }
    {
        let fails = self.reads.next_fails();
        let Some(i) = place(&self.entries, name) else {
            return Err(Failed);
        };
        if fails {
            return Err(self.reads.fault());
        }
        Ok(copy_from(&self.entries[i].bytes, at, buf))
    }

    /// Fails where the number of this call is one that fails, and where the memory for a name that isn't held is
    /// refused; both count a fault and leave the files as they were.
    fn begin(&mut self, name: &str) -> Result<(), Failed>
        // The trait's clauses.
        ensures ok { OnOk result (Some self.new.files ≡ putting (Some self.old.files) name.now []) }
        ensures err { OnErr result
            ((Some self.new.files ≡ Some self.old.files)
            ⊎ (Some self.new.files ≡ putting (Some self.old.files) name.now [])) }
        ensures cause { OnErr result (Rose self.old.writes.faults self.new.writes.faults) }
        ensures later { self.old.writes.faults ≤ self.new.writes.faults }
        ensures same_reads { self.new.reads.faults ≡ self.old.reads.faults }
        // This depot's own.
        ensures fails { IsTrue (is_failing self.old.writes) → IsErr result }
        ensures held { OnFalse (is_failing self.old.writes) (IsSome (get self.old.files name.now) → IsOk result) }
        ensures unchanged { OnErr result (self.new.files ≡ self.old.files) }
        ensures reads { self.new.reads ≡ self.old.reads }
        ensures writes { self.new.writes ≡ after_call (is_err result) self.old.writes }
    {
        if self.writes.next_fails() {
            return Err(self.writes.fault());
        }
        let nothing = Vec::new(self.alloc);
        match put(self.alloc, &mut self.entries, name, nothing) {
            Ok(()) => Ok(()),
            Err(NoMemory) => Err(self.writes.fault()),
        }
    }

    /// Takes the whole piece. A piece with bytes fails where the number of this call is one that fails, and where the
    /// memory for it is refused; both count a fault and leave the files as they were. An empty piece has its number and
    /// never fails.
    fn append(&mut self, name: &str, bytes: &[u8]) -> Result<usize, Failed>
        // The trait's clauses.
        ensures ok { IfOk result (Appended (Some self.old.files) (Some self.new.files) name.now bytes.now) }
        ensures err { OnErr result (Torn (Some self.old.files) (Some self.new.files) name.now bytes.now) }
        ensures cause { OnErr result (Rose self.old.writes.faults self.new.writes.faults) }
        ensures empty { bytes.now ≡ []
            → (result ≡ Ok 0) × (Some self.new.files ≡ Some self.old.files) × (self.new.writes.faults ≡ self.old.writes.faults) }
        ensures later { self.old.writes.faults ≤ self.new.writes.faults }
        ensures same_reads { self.new.reads.faults ≡ self.old.reads.faults }
        // This depot's own.
        ensures fails { IsTrue (is_failing self.old.writes) → 0 < length bytes.now → IsErr result }
        ensures whole { IfOk result (λ n. n ≡ length bytes.now) }
        ensures unchanged { OnErr result (self.new.files ≡ self.old.files) }
        ensures reads { self.new.reads ≡ self.old.reads }
        ensures writes { self.new.writes ≡ after_call (is_err result) self.old.writes }
    {
        let fails = self.writes.next_fails();
        if bytes.is_empty() {
            return Ok(0);
        }
        if fails {
            return Err(self.writes.fault());
        }
        match add(self.alloc, &mut self.entries, name, bytes) {
            Ok(()) => Ok(bytes.len()),
            Err(NoMemory) => Err(self.writes.fault()),
        }
    }
}
