//! A file of scenarios, line by line.

use crate::ending::Commands;
use crate::files::{Files, copied};
use crate::piece::put_piece;
use crate::round::unrolled;
use crate::trial::{Command, Each, Edit, Trial};
use crate::word::{Names, words_of};
use std::alloc::Global;
use std::collections::BTreeMap;
use std::fmt::Write;
use std::test::Fail;
use std::thread::Threads;

/// The bytes that words `AT=VALUE` set.
fn edits_of(alloc: Global, words: &[&str]) -> Result<Vec<Edit>, Fail> {
    let mut edits = Vec::new(alloc);
    for word in words {
        let (at, value) = word.split_once('=').ok_or("no edit")?;
        edits.push(Edit {
            at: at.parse::<usize>()?,
            value: u8::from_str_radix(value, 16)?,
            word: String::from_str(alloc, word)?,
        })?;
    }
    Ok(edits)
}

/// Where a file of scenarios has come to.
#[derive(Drop)]
struct Stage {
    alloc: Global,
    names: Names,
    /// The files that stood before the first heading.
    common: Option<Files>,
    files: Files,
    /// The name of the file that pieces are put to.
    open: String,
    /// How often the next command runs, and how many bytes a read gives it at most.
    each: Each,
    most: usize,
    /// The command that is to run.
    trial: Option<Trial>,
    transcript: String,
}

impl Stage {
    fn new(alloc: Global) -> Stage {
        Stage {
            alloc,
            names: BTreeMap::new(alloc),
            common: None,
            files: BTreeMap::new(alloc),
            open: String::new(alloc),
            each: Each::Once,
            most: usize::MAX,
            trial: None,
            transcript: String::new(alloc),
        }
    }

    /// A heading: the files are those before the first one.
    fn begin(&mut self, title: &str) -> Result<(), Fail> {
        match &self.common {
            Some(common) => self.files = copied(self.alloc, common)?,
            None => self.common = Some(copied(self.alloc, &self.files)?),
        }
        write!(self.transcript, "== {title}\n\n")?;
        Ok(())
    }

    /// The bytes of the file that is open.
    fn opened(&self) -> Result<Vec<u8>, Fail> {
        match self.files.get(self.open.as_str()) {
            Some(bytes) => Ok(bytes.clone()?),
            None => Ok(Vec::new(self.alloc)),
        }
    }

    /// A piece of the file that is open. Behind ` #` stands a comment.
    fn put(&mut self, line: &str) -> Result<(), Fail> {
        let mut bytes = self.opened()?;
        if let Some(text) = line.strip_prefix("text ") {
            bytes.extend_from_slice(text.as_bytes())?;
        } else {
            let piece = line.split_once(" #").map_or(line, |(piece, _)| piece);
            let words = words_of(self.alloc, &self.names, piece)?;
            let words: Vec<&str> = words.iter().map(|word| word.as_str()).collect(self.alloc)?;
            put_piece(self.alloc, &self.files, &mut bytes, &words)?;
        }
        self.files.insert(self.open.clone()?, bytes)?;
        Ok(())
    }

    fn let_name(&mut self, name: &str, text: &str) -> Result<(), Fail> {
        let name = String::from_str(self.alloc, name)?;
        self.names
            .insert(name, String::from_str(self.alloc, text)?)?;
        Ok(())
    }

    fn open(&mut self, name: &str) -> Result<(), Fail> {
        self.open = String::from_str(self.alloc, name)?;
        self.files.insert(self.open.clone()?, Vec::new(self.alloc))?;
        Ok(())
    }

    /// A line that is no piece, no heading and no command.
    fn prepare(&mut self, line: &str) -> Result<(), Fail> {
        let words: Vec<&str> = line.split_whitespace().collect(self.alloc)?;
        match words.as_slice() {
            ["let", name, text] => self.let_name(name, text)?,
            ["file", name] => self.open(name)?,
            ["each", "read"] => self.each = Each::Read,
            ["each", "write"] => self.each = Each::Write,
            ["each", "print"] => self.each = Each::Print,
            ["each", "disk-call"] => self.each = Each::DiskCall,
            ["each", "cut", "of", name] => {
                self.each = Each::Cut(String::from_str(self.alloc, name)?);
            }
            ["each", "byte", "of", name, edits @ ..] => {
                self.each = Each::Byte(
                    String::from_str(self.alloc, name)?,
                    edits_of(self.alloc, edits)?,
                );
            }
            ["reads", "give", most] => self.most = most.parse::<usize>()?,
            _ => return Err(Fail::new(format_args!("no such line: {line}"))),
        }
        Ok(())
    }

    fn command(&self, line: &str) -> Result<Command, Fail> {
        Ok(Command {
            line: String::from_str(self.alloc, line)?,
            words: words_of(self.alloc, &self.names, line)?,
        })
    }

    /// A command, which waits for those that are to run behind it.
    fn expect(&mut self, line: &str) -> Result<(), Fail> {
        self.trial = Some(Trial {
            each: std::mem::replace(&mut self.each, Each::Once),
            most: std::mem::replace(&mut self.most, usize::MAX),
            first: self.command(line)?,
            later: Vec::new(self.alloc),
        });
        Ok(())
    }

    /// A command that runs behind the one that waits.
    fn follow(&mut self, line: &str) -> Result<(), Fail> {
        let command = self.command(line)?;
        match &mut self.trial {
            Some(trial) => {
                trial.later.push(command)?;
                Ok(())
            }
            None => Err(Fail::new("`then` behind no command")),
        }
    }

    /// Runs the command that waits.
    fn play<R: Threads + Sync, C: Commands>(&mut self, rt: &R, commands: &C) -> Result<(), Fail>
        requires { C.shared commands.now }
    {
        if let Some(trial) = self.trial.take() {
            let told = trial.play(rt, commands, self.alloc, &mut self.files)?;
            let line = &trial.first.line;
            write!(self.transcript, "${line}\n{told}\n")?;
        }
        Ok(())
    }

    fn read_line<R: Threads + Sync, C: Commands>(
        &mut self,
        rt: &R,
        commands: &C,
        line: &str,
    ) -> Result<(), Fail>
        requires { C.shared commands.now }
    {
        let words = line.trim();
        if words.is_empty() || words.starts_with('#') {
            return Ok(());
        }
        if let Some(command) = line.strip_prefix("then") {
            return self.follow(command);
        }
        self.play(rt, commands)?;
        if let Some(piece) = line.strip_prefix("  ") {
            self.put(piece)
        } else if let Some(command) = line.strip_prefix('$') {
            self.expect(command)
        } else if let Some(title) = line.strip_prefix("== ") {
            self.begin(title)
        } else {
            self.prepare(line)
        }
    }
}

/// The transcript of a file of scenarios.
pub fn transcript_of<R: Threads + Sync, C: Commands>(
    rt: &R,
    commands: &C,
    alloc: Global,
    text: &str,
) -> Result<String, Fail>
    requires { C.shared commands.now }
{
    let mut stage = Stage::new(alloc);
    let text = unrolled(alloc, text)?;
    for line in text.lines() {
        stage.read_line(rt, commands, line)?;
    }
    stage.play(rt, commands)?;
    Ok(stage.transcript)
}
