//! A run of the program over files in memory, and what comes of it.

use crate::edge::{Paper, Plate, Shelf};
use clubcard_top::run;
use device_top::run_device;
use outside_core::MemoryDepot;
use play_core::{Commands, Ending, Faults, Files, told};
use std::alloc::Global;
use std::collections::BTreeMap;
use std::test::Fail;
use std::thread::Threads;

/// The files as a depot.
fn depot_of(alloc: Global, files: &Files) -> Result<MemoryDepot, Fail> {
    let mut depot = MemoryDepot::new(alloc);
    for (name, bytes) in files.iter() {
        depot.put(name.as_str(), bytes)?;
    }
    Ok(depot)
}

/// What the words name, where it isn't what it was.
fn changes_of(
    alloc: Global,
    files: &Files,
    words: &[String],
    depot: &MemoryDepot,
) -> Result<Files, Fail> {
    let mut changed = BTreeMap::new(alloc);
    for word in words {
        if let Some(bytes) = depot.bytes_of(word.as_str()) {
            let before = files.get(word.as_str()).map(|before| before.as_slice());
            if before != Some(bytes) {
                changed.insert(word.clone()?, bytes.to_vec(alloc)?)?;
            }
        }
    }
    Ok(changed)
}

/// Runs the words, and answers the status. It keeps no promise of `run`, so that no proof begins with them.
fn status<R: Threads + Sync>(
    rt: &R,
    alloc: Global,
    words: &[String],
    shelf: &mut Shelf,
    paper: &mut Paper,
) -> u8 {
    run(rt, alloc, words, shelf, paper).0
}

/// The same of the words of a command on a device.
fn device_status<R: Threads + Sync>(
    rt: &R,
    alloc: Global,
    words: &[String],
    plate: &mut Plate,
    shelf: &mut Shelf,
    paper: &mut Paper,
) -> u8 {
    run_device(rt, alloc, words, plate, shelf, paper).0
}

/// Runs the words of a command on a device, which is a file too, and answers the status, and how many calls of the
/// disk were made.
fn on_device<R: Threads + Sync>(
    rt: &R,
    alloc: Global,
    words: &[String],
    device: &str,
    faults: Faults,
    shelf: &mut Shelf,
    paper: &mut Paper,
) -> Result<(u8, u64), Fail> {
    let held = shelf.files.bytes_of(device).unwrap_or(&[]);
    let mut plate = Plate::new(alloc, held, faults)?;
    let status = device_status(rt, alloc, words, &mut plate, shelf, paper);
    if !plate.bytes().is_empty() {
        shelf.files.put(device, plate.bytes())?;
    }
    Ok((status, plate.calls.made))
}

/// The program, with what its threads run on.
#[derive(Drop)]
pub struct Program<'a, R> {
    rt: &'a R,
}

impl<'a, R: Threads + Sync> Program<'a, R> {
    pub fn new(rt: &'a R) -> Program<'a, R> {
        Program { rt }
    }
}

impl<'a, R: Threads + Sync> Commands for Program<'a, R> {
    ghost use Rattle.std.specs.Thread.{IsSync};

    ghost shared = { λ program. IsSync R.row };

    fn call<S: Threads + Sync>(
        &self,
        _rt: &S,
        alloc: Global,
        files: &Files,
        words: &[String],
        faults: Faults,
    ) -> Result<Ending, Fail> {
        let rt = self.rt;
        let mut shelf = Shelf::new(depot_of(alloc, files)?, faults);
        let mut paper = Paper::new(alloc, faults);
        let (status, disk_calls) = match words {
            [command, device, ..] if command.starts_with("device-") => {
                let name = device.as_str();
                on_device(rt, alloc, words, name, faults, &mut shelf, &mut paper)?
            }
            _ => (status(rt, alloc, words, &mut shelf, &mut paper), 0),
        };
        let changed = changes_of(alloc, files, words, &shelf.files)?;
        Ok(Ending {
            text: told(alloc, &paper.lines, status, &changed)?,
            changed,
            reads: shelf.reads.made,
            writes: shelf.writes.made,
            prints: paper.prints.made,
            disk_calls,
        })
    }
}
