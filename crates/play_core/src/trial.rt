//! A command that runs once, or again and again with something else failing.

use crate::ending::{Commands, Ending, Faults, NONE};
use crate::files::{Files, copied, put_all};
use crate::piece::set_byte;
use std::alloc::Global;
use std::fmt::Write;
use std::test::Fail;
use std::thread::Threads;

/// A byte of a file that is set: its place, its value, and how that is written.
#[derive(Drop)]
pub struct Edit {
    pub at: usize,
    pub value: u8,
    pub word: String,
}

/// How often a command runs: once; with each of its calls of a kind failing in turn; with a file cut to each length; or
/// with each of some bytes of a file set.
#[derive(Drop)]
pub enum Each {
    Once,
    Read,
    Write,
    Print,
    DiskCall,
    Cut(String),
    Byte(String, Vec<Edit>),
}

/// A command, as it is written and in its words.
#[derive(Drop)]
pub struct Command {
    pub line: String,
    pub words: Vec<String>,
}

/// A command that is to run, and those that run behind it each time.
#[derive(Drop)]
pub struct Trial {
    pub each: Each,
    /// How many bytes a read gives at most.
    pub most: usize,
    pub first: Command,
    pub later: Vec<Command>,
}

impl Trial {
    fn faults(&self, number: u64) -> Faults {
        let none = Faults {
            most: self.most,
            ..NONE
        };
        match self.each {
            Each::Read => Faults {
                read: number,
                ..none
            },
            Each::Write => Faults {
                write: number,
                ..none
            },
            Each::Print => Faults {
                print: number,
                ..none
            },
            Each::DiskCall => Faults {
                disk: number,
                ..none
            },
            _ => none,
        }
    }

    /// Whether the run of this number was the last one: nothing failed, and no file was harmed.
    fn is_last(&self, files: &Files, ending: &Ending, number: u64) -> bool {
        match &self.each {
            Each::Once => true,
            Each::Read => ending.reads <= number,
            Each::Write => ending.writes <= number,
            Each::Print => ending.prints <= number,
            Each::DiskCall => ending.disk_calls <= number,
            Each::Cut(name) => match files.get(name.as_str()) {
                Some(bytes) => bytes.len() as u64 <= number,
                None => true,
            },
            Each::Byte(_, edits) => edits.len() as u64 <= number,
        }
    }

    /// The files of the run of this number.
    fn files(&self, alloc: Global, files: &Files, number: u64) -> Result<Files, Fail> {
        let mut files = copied(alloc, files)?;
        match &self.each {
            Each::Cut(name) => {
                if let Some(bytes) = files.get_mut(name.as_str()) {
                    bytes.truncate(number as usize);
                }
            }
            Each::Byte(name, edits) => {
                if let Some(bytes) = files.get_mut(name.as_str()) {
                    if let Some(edit) = edits.get(number as usize) {
                        set_byte(bytes, edit.at, edit.value)?;
                    }
                }
            }
            _ => {}
        }
        Ok(files)
    }

    /// What the run of this number comes to, with what the commands behind it tell.
    fn run<R: Threads + Sync, C: Commands>(
        &self,
        rt: &R,
        commands: &C,
        alloc: Global,
        files: &Files,
        number: u64,
    ) -> Result<Ending, Fail>
        requires { C.shared commands.now }
    {
        let mut files = self.files(alloc, files, number)?;
        let mut ending = commands.call(rt, alloc, &files, &self.first.words, self.faults(number))?;
        put_all(&mut files, &ending.changed)?;
        for command in &self.later {
            let next = commands.call(rt, alloc, &files, &command.words, NONE)?;
            write!(ending.text, "then{}\n{}", command.line, next.text)?;
            put_all(&mut files, &next.changed)?;
        }
        Ok(ending)
    }

    /// What the run of this number is told by, but for the last one.
    fn label(&self, alloc: Global, number: u64) -> Result<String, Fail> {
        if let Each::Byte(_, edits) = &self.each {
            if let Some(edit) = edits.get(number as usize) {
                return Ok(edit.word.clone()?);
            }
        }
        Ok(format!(in alloc; "{number}")?)
    }

    /// What fails.
    fn kind(&self, alloc: Global) -> Result<String, Fail> {
        match &self.each {
            Each::Once => Ok(String::new(alloc)),
            Each::Read => Ok(String::from_str(alloc, "read")?),
            Each::Write => Ok(String::from_str(alloc, "write")?),
            Each::Print => Ok(String::from_str(alloc, "print")?),
            Each::DiskCall => Ok(String::from_str(alloc, "disk call")?),
            Each::Cut(name) => Ok(format!(in alloc; "cut of {name}")?),
            Each::Byte(name, _) => Ok(format!(in alloc; "byte of {name}")?),
        }
    }

    /// Tells what came of the runs from one to another, which came to the same.
    fn put_runs(
        &self,
        alloc: Global,
        told: &mut String,
        from: u64,
        to: u64,
        same: &str,
    ) -> Result<(), Fail> {
        let kind = self.kind(alloc)?;
        let first = self.label(alloc, from)?;
        if from == to {
            write!(told, "[{kind} {first}]\n{same}")?;
        } else {
            let last = self.label(alloc, to)?;
            write!(told, "[{kind} {first} to {last}]\n{same}")?;
        }
        Ok(())
    }

    /// Runs until nothing fails, and tells what came of each run; runs in a row that came to the same are told once.
    fn play_each<R: Threads + Sync, C: Commands>(
        &self,
        rt: &R,
        commands: &C,
        alloc: Global,
        files: &Files,
    ) -> Result<String, Fail>
        requires { C.shared commands.now }
    {
        let mut told = String::new(alloc);
        let mut from = 0;
        let mut same = String::new(alloc);
        for number in 0..u64::MAX {
            let ending = self.run(rt, commands, alloc, files, number)?;
            let is_last = self.is_last(files, &ending, number);
            if number > from && (is_last || ending.text != same) {
                self.put_runs(alloc, &mut told, from, number.saturating_sub(1), &same)?;
                from = number;
            }
            same = ending.text;
            if is_last {
                write!(told, "[none]\n{same}")?;
                break;
            }
        }
        Ok(told)
    }

    /// Runs the command once, over these files, and tells what came of it; or runs it with each thing failing, after
    /// which the files are as before.
    pub fn play<R: Threads + Sync, C: Commands>(
        &self,
        rt: &R,
        commands: &C,
        alloc: Global,
        files: &mut Files,
    ) -> Result<String, Fail>
        requires { C.shared commands.now }
    {
        if let Each::Once = self.each {
            let ending = self.run(rt, commands, alloc, files, 0)?;
            put_all(files, &ending.changed)?;
            return Ok(ending.text);
        }
        self.play_each(rt, commands, alloc, files)
    }
}
