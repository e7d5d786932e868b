ghost use Rattle.std.specs.Prelude.{◌≡◌, ◌≤◌, length, IfOk};

use crate::ahead::{Ahead, read_through};
use outside_core::{Depot, Failed};
use std::fs;
use std::fs::{OpenFile, OpenOptions};
use std::io::Write;
use std::os::unix::fs::MetadataExt;
use std::rt::Files;

/// The longest name of a file that is kept open.
const MAX_NAME: usize = 4096;

/// A file that stays open under its name: it is opened once for all that is read from it, or added to it.
#[derive(Drop)]
struct NamedFile<F> {
    name: [u8; MAX_NAME],
    len: usize,
    file: F,
}

impl<F: Drop> NamedFile<F> {
    /// The file of this name, unless the name is too long to be kept.
    fn new(name: &str, file: F) -> Option<NamedFile<F>> {
        let bytes = name.as_bytes();
        let mut kept = [0u8; MAX_NAME];
        if bytes.len() > MAX_NAME {
            return None;
        }
        kept[..bytes.len()].copy_from_slice(bytes);
        Some(NamedFile {
            name: kept,
            len: bytes.len(),
            file,
        })
    }

    fn is_named(&self, name: &str) -> bool {
        self.name.get(..self.len) == Some(name.as_bytes())
    }
}

/// The files of the system, by their paths. The file that was read last stays open, and so does the one that was begun
/// last; that one can't be begun by another of its names, as by a link or as `./NAME`. A file is read ahead, until
/// something is written.
#[derive(Drop)]
pub struct FileDepot<'a, R: Files> {
    rt: &'a R,
    read: Option<NamedFile<R::File>>,
    ahead: Ahead,
    begun: Option<NamedFile<R::File>>,
    read_faults: u64,
    write_faults: u64,
}

pub(crate) fn write_to<F: Write>(file: &mut F, bytes: &[u8]) -> Result<usize, Failed>
    ensures { IfOk result (λ n. n ≤ length bytes.now) }
{
    match file.write(bytes) {
        Ok(n) => Ok(n),
        Err(_) => Err(Failed),
    }
}

/// Writes behind what the name holds.
fn add<R: Files>(rt: &R, name: &str, bytes: &[u8]) -> Result<usize, Failed>
    ensures { IfOk result (λ n. n ≤ length bytes.now) }
{
    let mut how = OpenOptions::new();
    how.append(true);
    how.create(true);
    let Ok(mut file) = how.open(rt, name) else {
        return Err(Failed);
    };
    write_to(&mut file, bytes)
}

/// Whether the name is a name of this file, by its device and inode. Without an inode no two files are known as one.
fn is_name_of<R: Files>(rt: &R, name: &str, file: &R::File) -> bool {
    let (Ok(named), Ok(open)) = (fs::metadata(rt, name), file.metadata()) else {
        return false;
    };
    open.ino() != 0 && named.ino() == open.ino() && named.dev() == open.dev()
}

impl<'a, R: Files> FileDepot<'a, R> {
    /// No error has been counted.
    pub fn new(rt: &'a R) -> FileDepot<'a, R>
        ensures reads { result.read_faults ≡ 0 }
        ensures writes { result.write_faults ≡ 0 }
    {
        FileDepot {
            rt,
            read: None,
            ahead: Ahead::new(),
            begun: None,
            read_faults: 0,
            write_faults: 0,
        }
    }

    /// Reads from the file that is open, or else from the one of this name, which then stays open.
    fn read(&mut self, name: &str, at: u64, buf: &mut [u8]) -> Result<usize, Failed>
        ensures count { IfOk result (λ n. n ≤ length buf.old) }
        ensures same_reads { self.new.read_faults ≡ self.old.read_faults }
        ensures same_writes { self.new.write_faults ≡ self.old.write_faults }
    {
        if let Some(read) = &mut self.read {
            if read.is_named(name) {
                return read_through(&mut self.ahead, &mut read.file, at, buf);
            }
        }
        self.ahead.forget();
        let Ok(mut file) = fs::open(self.rt, name) else {
            return Err(Failed);
        };
        let read = read_through(&mut self.ahead, &mut file, at, buf);
        self.read = NamedFile::new(name, file);
        read
    }

    /// Whether this is another name of the file that was begun last.
    fn is_begun(&self, name: &str) -> bool {
        match &self.begun {
            Some(begun) => !begun.is_named(name) && is_name_of(self.rt, name, &begun.file),
            None => false,
        }
    }

    /// Makes the name hold nothing, and keeps its file open.
    fn create(&mut self, name: &str) -> Result<(), Failed>
        ensures same_reads { self.new.read_faults ≡ self.old.read_faults }
        ensures same_writes { self.new.write_faults ≡ self.old.write_faults }
    {
        self.begun = None;
        self.ahead.forget();
        let Ok(file) = fs::create(self.rt, name) else {
            return Err(Failed);
        };
        self.begun = NamedFile::new(name, file);
        Ok(())
    }

    /// Writes to the file that is open, or else behind what the name holds.
    fn write(&mut self, name: &str, bytes: &[u8]) -> Result<usize, Failed>
        ensures added { IfOk result (λ n. n ≤ length bytes.now) }
        ensures same_reads { self.new.read_faults ≡ self.old.read_faults }
        ensures same_writes { self.new.write_faults ≡ self.old.write_faults }
    {
        self.ahead.forget();
        if let Some(begun) = &mut self.begun {
            if begun.is_named(name) {
                return write_to(&mut begun.file, bytes);
            }
        }
        add(self.rt, name, bytes)
    }
}

impl<'a, R: Files> Depot for FileDepot<'a, R> {
    ghost use Rattle.std.specs.Prelude.{None};

    ghost files = { λ _. None };

    ghost read_faults = { λ d. d.read_faults };

    ghost failed_reads = { λ _. None };

    ghost write_faults = { λ d. d.write_faults };

    fn read_at(&mut self, name: &str, at: u64, buf: &mut [u8]) -> Result<usize, Failed> {
        let read = self.read(name, at, buf);
        if read.is_err() {
            self.read = None;
            self.read_faults = self.read_faults.saturating_add(1);
        }
        read
    }

    fn begin(&mut self, name: &str) -> Result<(), Failed> {
        // Emptied by its other name, the file would lose what was just written to it.
        let begun = if self.is_begun(name) {
            Err(Failed)
        } else {
            self.create(name)
        };
        if begun.is_err() {
            self.write_faults = self.write_faults.saturating_add(1);
        }
        begun
    }

    fn append(&mut self, name: &str, bytes: &[u8]) -> Result<usize, Failed> {
        if bytes.is_empty() {
            return Ok(0);
        }
        match self.write(name, bytes) {
            Ok(n) if n > 0 => Ok(n),
            _ => {
                self.write_faults = self.write_faults.saturating_add(1);
                Err(Failed)
            }
        }
    }
}
