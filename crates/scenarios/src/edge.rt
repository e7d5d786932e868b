//! Files, a stream and a disk in memory, whose calls are counted, and of which one can fail. What they hold isn't told
//! to contracts.

ghost use Rattle.std.specs.Prelude.{◌≡◌, ◌≤◌, OnOk, OnErr, None};
ghost use Rattle.outside_core.specs.Files.{Rose};

use outside_core::{Depot, Failed, MemoryDepot, Sink};
use play_core::Faults;
use slot_core::{Disk, MemoryDisk};
use std::alloc::{AllocError, Global};

/// The calls of one kind: how many were made, the numbers of the first and the last that fail, and how many failed.
#[derive(Clone, Copy)]
pub struct Calls {
    pub made: u64,
    first: u64,
    last: u64,
    faults: u64,
}

impl Calls {
    fn failing(first: u64, last: u64) -> Calls {
        Calls {
            made: 0,
            first,
            last,
            faults: 0,
        }
    }

    /// Counts a call, and its fault where it is one that fails.
    fn next(&mut self) -> Result<(), Failed>
        ensures cause { OnErr result (Rose self.old.faults self.new.faults) }
        ensures unblamed { OnOk result (self.new.faults ≡ self.old.faults) }
        ensures later { self.old.faults ≤ self.new.faults }
    {
        let number = self.made;
        self.made = self.made.saturating_add(1);
        if self.first <= number && number <= self.last {
            return self.counted(Err(Failed));
        }
        Ok(())
    }

    /// Counts a fault, where this is one.
    fn counted<T>(&mut self, answer: Result<T, Failed>) -> Result<T, Failed>
        ensures same { result ≡ answer }
        ensures cause { OnErr result (Rose self.old.faults self.new.faults) }
        ensures later { self.old.faults ≤ self.new.faults }
    {
        if answer.is_err() {
            self.faults = self.faults.saturating_add(1);
        }
        answer
    }
}

/// Files in memory.
#[derive(Drop)]
pub struct Shelf {
    pub files: MemoryDepot,
    most: usize,
    pub reads: Calls,
    pub writes: Calls,
}

impl Shelf {
    pub fn new(files: MemoryDepot, faults: Faults) -> Shelf {
        Shelf {
            files,
            most: faults.most,
            reads: Calls::failing(faults.read, faults.read),
            writes: Calls::failing(faults.write, faults.write),
        }
    }
}

impl Depot for Shelf {
    ghost files = { λ _. None };

    ghost read_faults = { λ d. d.reads.faults };

    ghost failed_reads = { λ _. None };

    ghost write_faults = { λ d. d.writes.faults };

    fn read_at(&mut self, name: &str, at: u64, buf: &mut [u8]) -> Result<usize, Failed> {
        self.reads.next()?;
        let room = buf.len().min(self.most);
        let read = self.files.read_at(name, at, &mut buf[..room]);
        self.reads.counted(read)
    }

    fn begin(&mut self, name: &str) -> Result<(), Failed> {
        self.writes.next()?;
        self.writes.counted(self.files.begin(name))
    }

    fn append(&mut self, name: &str, bytes: &[u8]) -> Result<usize, Failed> {
        if bytes.is_empty() {
            return Ok(0);
        }
        self.writes.next()?;
        self.writes.counted(self.files.append(name, bytes))
    }
}

/// Lines in memory.
#[derive(Drop)]
pub struct Paper {
    pub lines: Vec<u8>,
    pub prints: Calls,
}

impl Paper {
    pub fn new(alloc: Global, faults: Faults) -> Paper {
        Paper {
            lines: Vec::new(alloc),
            prints: Calls::failing(faults.print, faults.print),
        }
    }
}

impl Sink for Paper {
    ghost written = { λ _. None };

    ghost faults = { λ s. s.prints.faults };

    fn write(&mut self, bytes: &[u8]) -> Result<usize, Failed> {
        if bytes.is_empty() {
            return Ok(0);
        }
        self.prints.next()?;
        match self.lines.extend_from_slice(bytes) {
            Ok(()) => Ok(bytes.len()),
            Err(AllocError) => self.prints.counted(Err(Failed)),
        }
    }
}

/// A disk in memory.
#[derive(Drop)]
pub struct Plate {
    disk: MemoryDisk,
    pub calls: Calls,
}

impl Plate {
    /// A disk that holds these bytes.
    pub fn new(alloc: Global, bytes: &[u8], faults: Faults) -> Result<Plate, Failed> {
        let mut disk = MemoryDisk::new(alloc);
        disk.write_at(0, bytes)?;
        let calls = Calls::failing(faults.disk, u64::MAX);
        Ok(Plate { disk, calls })
    }

    /// The bytes as they read.
    pub fn bytes(&self) -> &[u8] {
        self.disk.bytes()
    }
}

impl Disk for Plate {
    // It tells nothing, and so no image of it is known.
    ghost state = { λ d. record { told = None; images = λ _. ⊥; clock = 0; since = λ _ _. ⊥; faults = d.calls.faults } };

    ghost lawful = { λ d. record {
      told_is_image = λ bytes told. Prim.cc;
      now_counts = λ t image le now. now;
      now_alone = λ image now. now;
    } };

    fn read_at(&mut self, at: u64, buf: &mut [u8]) -> Result<usize, Failed> {
        self.calls.next()?;
        self.calls.counted(self.disk.read_at(at, buf))
    }

    fn write_at(&mut self, at: u64, bytes: &[u8]) -> Result<(), Failed> {
        self.calls.next()?;
        self.calls.counted(self.disk.write_at(at, bytes))
    }

    fn sync(&mut self) -> Result<(), Failed> {
        self.calls.next()?;
        self.calls.counted(self.disk.sync())
    }
}
