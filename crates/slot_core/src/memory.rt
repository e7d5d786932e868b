ghost use Rattle.std.specs.Prelude.{◌≡◌, ◌≤◌, ◌-◌, ◌↔◌, [], min, length, is_err, IsErr, IsTrue, OnOk, OnErr, IfOk, Some, None};
ghost use Rattle.slot_core.specs.Disk.{HasFailed, Tells, Written, any_bytes, GivesPiece, IsSynced, Quiet, Tears};
ghost use Rattle.slot_core.specs.Steps.{content, Write, Sync};
ghost use Rattle.slot_core.specs.Memory.{new_disk, is_stopped, one_made, one_failed, after_call, after_step, state_of};

use crate::disk::Disk;
use crate::recording::Recording;
use outside_core::{Failed, copy_from};
use std::alloc::Global;
use std::marker::Model;

/// A disk in memory, which keeps a record of its writes and syncs. Its calls are numbered together, from 0, and can be
/// made to fail from some number on; a number stays at `u64::MAX` once it is there.
#[derive(Drop)]
pub struct MemoryDisk {
    recording: Recording,
    made: u64,
    stop: Option<u64>,
    faults: u64,
}

impl Model for MemoryDisk {
    ghost use Rattle.slot_core.specs.Memory.{MemoryView, memory_code};

    ghost Value = { MemoryView };

    ghost coded = { memory_code };

    ghost view = { λ d. record { steps = d.recording; made = d.made; stop = d.stop; faults = d.faults } };
}

impl MemoryDisk {
    /// A disk that holds no bytes and counts no fault.
    pub fn new(alloc: Global) -> MemoryDisk
        ensures { result ≡ new_disk }
    {
        MemoryDisk {
            recording: Recording::new(alloc),
            made: 0,
            stop: None,
            faults: 0,
        }
    }

    /// The bytes as they read.
    pub fn bytes(&self) -> &[u8]
        ensures { result.now ≡ content [] self.now.steps }
    {
        self.recording.bytes()
    }

    /// The call with this number and each later one fail.
    pub fn stop_at(&mut self, call: u64)
        ensures { self.new ≡ record self.old { stop = Some call } }
    {
        self.stop = Some(call);
    }

    /// Calls no longer stop, and the bytes stay.
    pub fn restart(&mut self)
        ensures { self.new ≡ record self.old { stop = None } }
    {
        self.stop = None;
    }

    /// Makes one call, and says whether it is stopped.
    fn next_stops(&mut self) -> bool
        ensures stops { result ≡ is_stopped self.old }
        ensures made { self.new ≡ one_made self.old }
    {
        let stops = match self.stop {
            Some(number) => self.made >= number,
            None => false,
        };
        self.made = self.made.saturating_add(1);
        stops
    }

    /// Counts a fault.
    fn fault(&mut self) -> Failed
        ensures counted { self.new ≡ one_failed self.old }
        ensures later { self.old.faults ≤ self.new.faults }
    {
        self.faults = self.faults.saturating_add(1);
        Failed
    }
}

impl Disk for MemoryDisk {
    ghost use Rattle.slot_core.specs.Lawful.{lawful_by};

    ghost state = { state_of };

    ghost lawful = { λ d. lawful_by d.steps d.faults };

    /// Fails where this call is stopped, which counts a fault. Else it fills as much of the buffer as the bytes give.
    fn read_at(&mut self, at: u64, buf: &mut [u8]) -> Result<usize, Failed>
        // The trait's clauses.
        ensures count { IfOk result (λ n. n ≤ length buf.old) }
        ensures bytes { IfOk result (λ n. GivesPiece (state_of self.old).told at buf.new n) }
        ensures cause { OnErr result (HasFailed (state_of self.old) (state_of self.new)) }
        ensures later { self.old.faults ≤ self.new.faults }
        ensures quiet { Quiet (state_of self.old) (state_of self.new) }
        // This disk's own.
        ensures fails { IsErr result ↔ IsTrue (is_stopped self.old) }
        ensures whole { IfOk result (λ n. n ≡ min (length buf.old) (length (content [] self.old.steps) - at)) }
        ensures leaves { self.new ≡ after_call (is_err result) self.old }
    {
        if self.next_stops() {
            return Err(self.fault());
        }
        Ok(copy_from(self.recording.bytes(), at, buf))
    }

    /// Fails where this call is stopped, and where memory is refused. Both count a fault, and keep nothing.
    fn write_at(&mut self, at: u64, bytes: &[u8]) -> Result<(), Failed>
        // The trait's clauses.
        ensures ok { OnOk result (Tells (Written at bytes.now) (state_of self.old) (state_of self.new)) }
        ensures err { OnErr result (Tells any_bytes (state_of self.old) (state_of self.new)) }
        ensures cause { OnErr result (HasFailed (state_of self.old) (state_of self.new)) }
        ensures later { self.old.faults ≤ self.new.faults }
        ensures tears { Tears at (length bytes.now) (state_of self.old) (state_of self.new) }
        // This disk's own.
        ensures fails { IsTrue (is_stopped self.old) → IsErr result }
        ensures leaves { self.new ≡ after_step (Write at bytes.now) (is_err result) self.old }
    {
        if self.next_stops() {
            return Err(self.fault());
        }
        match self.recording.write(at, bytes) {
            Ok(()) => Ok(()),
            Err(_) => Err(self.fault()),
        }
    }

    /// Fails where this call is stopped, and where memory is refused. Both count a fault.
    fn sync(&mut self) -> Result<(), Failed>
        // The trait's clauses.
        ensures ok { OnOk result (IsSynced (state_of self.new)) }
        ensures cause { OnErr result (HasFailed (state_of self.old) (state_of self.new)) }
        ensures later { self.old.faults ≤ self.new.faults }
        ensures quiet { Quiet (state_of self.old) (state_of self.new) }
        // This disk's own.
        ensures fails { IsTrue (is_stopped self.old) → IsErr result }
        ensures leaves { self.new ≡ after_step Sync (is_err result) self.old }
    {
        if self.next_stops() {
            return Err(self.fault());
        }
        match self.recording.sync() {
            Ok(()) => Ok(()),
            Err(_) => Err(self.fault()),
        }
    }
}
