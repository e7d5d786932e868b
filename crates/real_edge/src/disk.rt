ghost use Rattle.std.specs.Prelude.{◌≡◌, ◌≤◌, length, IfOk};

use crate::ahead::read_from;
use crate::files::write_to;
use outside_core::Failed;
use slot_core::Disk;
use std::fs::{OpenFile, OpenOptions};
use std::io::{Seek, SeekFrom, Write};
use std::rt::Files;

/// A file of the system as a disk. The file is opened by the first call that needs it, and stays open; a first write
/// makes it where it isn't there.
#[derive(Drop)]
pub struct FileDisk<'a, R: Files> {
    rt: &'a R,
    name: &'a str,
    file: Option<R::File>,
    faults: u64,
}

/// Writes all the bytes from `at` on.
fn write_from<F: Write + Seek>(file: &mut F, at: u64, bytes: &[u8]) -> Result<(), Failed> {
    let Ok(_) = file.seek(SeekFrom::Start(at)) else {
        return Err(Failed);
    };
    let mut done = 0;
    while done < bytes.len() {
        let count = write_to(file, &bytes[done..])?;
        if count == 0 {
            return Err(Failed);
        }
        done += count;
    }
    Ok(())
}

impl<'a, R: Files> FileDisk<'a, R> {
    /// The file of this name. No error has been counted.
    pub fn new(rt: &'a R, name: &'a str) -> FileDisk<'a, R>
        ensures { result.faults ≡ 0 }
    {
        FileDisk {
            rt,
            name,
            file: None,
            faults: 0,
        }
    }

    /// Opens the file where it isn't open, and makes it where it isn't there and is to be made.
    fn open(&mut self, make: bool) -> Result<(), Failed>
        ensures same { self.new.faults ≡ self.old.faults }
    {
        if self.file.is_some() {
            return Ok(());
        }
        let mut how = OpenOptions::new();
        how.read(true);
        how.write(true);
        how.create(make);
        let Ok(file) = how.open(self.rt, self.name) else {
            return Err(Failed);
        };
        self.file = Some(file);
        Ok(())
    }

    fn read(&mut self, at: u64, buf: &mut [u8]) -> Result<usize, Failed>
        ensures count { IfOk result (λ n. n ≤ length buf.old) }
        ensures same { self.new.faults ≡ self.old.faults }
    {
        self.open(false)?;
        match &mut self.file {
            Some(file) => read_from(file, at, buf),
            None => Err(Failed),
        }
    }

    fn write(&mut self, at: u64, bytes: &[u8]) -> Result<(), Failed>
        ensures same { self.new.faults ≡ self.old.faults }
    {
        self.open(true)?;
        match &mut self.file {
            Some(file) => write_from(file, at, bytes),
            None => Err(Failed),
        }
    }

    /// Waits until the system has all that was written on its disk.
    fn flush(&mut self) -> Result<(), Failed>
        ensures same { self.new.faults ≡ self.old.faults }
    {
        self.open(false)?;
        match &self.file {
            Some(file) => match file.sync_all() {
                Ok(()) => Ok(()),
                Err(_) => Err(Failed),
            },
            None => Err(Failed),
        }
    }
}

impl<'a, R: Files> Disk for FileDisk<'a, R> {
    ghost use Rattle.std.specs.Prelude.{None};

    // It tells nothing, so that a crash may leave anything.
    ghost state = { λ d. record {
      told = None;
      images = λ _. Unit {0};
      clock = 0;
      since = λ _ _. Unit {0};
      faults = d.faults;
    } };

    ghost lawful = { λ d. record {
      told_is_image = λ bytes told. Prim.cc;
      now_counts = λ t image le now. now;
      now_alone = λ image now. now;
    } };

    fn read_at(&mut self, at: u64, buf: &mut [u8]) -> Result<usize, Failed> {
        let read = self.read(at, buf);
        if read.is_err() {
            self.faults = self.faults.saturating_add(1);
        }
        read
    }

    fn write_at(&mut self, at: u64, bytes: &[u8]) -> Result<(), Failed> {
        let written = self.write(at, bytes);
        if written.is_err() {
            self.faults = self.faults.saturating_add(1);
        }
        written
    }

    fn sync(&mut self) -> Result<(), Failed> {
        let flushed = self.flush();
        if flushed.is_err() {
            self.faults = self.faults.saturating_add(1);
        }
        flushed
    }
}
