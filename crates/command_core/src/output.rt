//! Files that a command writes. All memory that they need is taken before the first is begun.

ghost use Rattle.std.specs.Prelude.{◌≡◌, ◌≤◌, ◌++◌, [], ◌∷◌, OnOk, OnErr, IfSome, IsNone};
ghost use Rattle.sha2.specs.Sha256.{sha256};
ghost use Rattle.outside_core.specs.Effects.{OnlyWrites};
ghost use Rattle.outside_core.specs.Files.{Rose, putting};
ghost use Rattle.sample_core.specs.Sample.{sample_text};
ghost use Rattle.command_core.specs.Digested.{concatenated};
ghost use Rattle.command_core.specs.Runs.{with_outputs, IsLeft, IsTorn};

use crate::pieces::{write_digested, write_whole};
use outside_core::{Depot, Failed};
use sample_core::SampleJob;
use std::marker::Model;
use std::thread::Threads;

/// What a file is to hold.
#[derive(Debug, Drop)]
enum Text {
    /// These bytes.
    Whole(Vec<u8>),
    /// These pieces, one behind the other, and behind them the digest of all, which is drawn as they are written.
    Digested(Vec<Vec<u8>>),
}

/// A file to be written: its name, which the words lend, and the bytes that it then holds.
#[derive(Debug, Drop)]
pub struct Output<'a> {
    name: &'a str,
    text: Text,
}

impl<'a> Model for Output<'a> {
    ghost use Rattle.command_core.specs.ReplyFields.{OutputFields};
    ghost use Rattle.command_core.specs.Digested.{bytes_of};

    ghost Value = { OutputFields };

    ghost view = { λ o. record { name = o.name.now; bytes = bytes_of o.text } };
}

impl<'a> Output<'a> {
    /// The output of these bytes to the file of this name.
    pub fn new(name: &'a str, bytes: Vec<u8>) -> Output<'a>
        ensures { result ≡ record { name = name.now; bytes = bytes.items } }
    {
        Output {
            name,
            text: Text::Whole(bytes),
        }
    }

    /// The output of the text that these pieces make, one behind the other, and its SHA-256 (FIPS 180-4) to the file of
    /// this name.
    pub fn digested(name: &'a str, pieces: Vec<Vec<u8>>) -> Output<'a>
        ensures { result ≡ record { name = name.now; bytes = concatenated pieces.items ++ sha256 (concatenated pieces.items) } }
    {
        Output {
            name,
            text: Text::Digested(pieces),
        }
    }

    /// The file's name.
    fn name(&self) -> &'a str
        ensures { result.now ≡ self.now.name }
    {
        self.name
    }

    /// Begins the file, and adds all bytes.
    fn write<R: Threads, D: Depot>(&self, rt: &R, depot: &mut D) -> Result<(), Failed>
        ensures ok { OnOk result (D.files depot.new ≡ putting (D.files depot.old) self.now.name self.now.bytes) }
        ensures err { OnErr result (IsLeft (D.files depot.old) (D.files depot.new) self.now) }
        ensures cause { OnErr result (Rose (D.write_faults depot.old) (D.write_faults depot.new)) }
        ensures only_writes { OnlyWrites D.Depot depot.old depot.new }
    {
        match &self.text {
            Text::Whole(bytes) => write_whole(depot, self.name, bytes),
            Text::Digested(pieces) => write_digested(rt, depot, self.name, pieces),
        }
    }
}

/// Writes the outputs in their order, each once the one before it is whole, and answers the name of the first that
/// can't be written.
pub fn write_outputs<'a, R: Threads, D: Depot>(
    rt: &R,
    outputs: &[Output<'a>],
    depot: &mut D,
) -> Option<&'a str>
    ensures all { IsNone result → D.files depot.new ≡ with_outputs (D.files depot.old) outputs.now }
    ensures torn { IfSome result (λ name. IsTorn (D.files depot.old) (D.files depot.new) outputs.now name.now) }
    ensures cause { IfSome result (λ name. Rose (D.write_faults depot.old) (D.write_faults depot.new)) }
    ensures quiet { outputs.now ≡ [] → D.write_faults depot.new ≡ D.write_faults depot.old }
    ensures only_writes { OnlyWrites D.Depot depot.old depot.new }
{
    for output in outputs {
        match output.write(rt, depot) {
            Ok(()) => {}
            Err(Failed) => return Some(output.name()),
        }
    }
    None
}

/// A job to be written as it is made: the name of its file, which the words lend, and what makes it.
#[derive(Drop)]
pub struct SampleOutput<'a> {
    name: &'a str,
    job: SampleJob,
}

impl<'a> Model for SampleOutput<'a> {
    ghost use Rattle.sample_core.specs.Sample.{sample_text};
    ghost use Rattle.command_core.specs.ReplyFields.{OutputFields};

    ghost Value = { OutputFields };

    ghost view = { λ o. record { name = o.name.now; bytes = sample_text o.job.number o.job.count } };
}

impl<'a> SampleOutput<'a> {
    /// The output of this job to the file of this name.
    pub fn new(name: &'a str, job: SampleJob) -> SampleOutput<'a>
        ensures { result ≡ record { name = name.now; bytes = sample_text job.number job.count } }
    {
        SampleOutput { name, job }
    }

    /// The file's name.
    pub fn name(&self) -> &'a str
        ensures { result.now ≡ self.now.name }
    {
        self.name
    }

    /// Writes the job.
    pub fn write<D: Depot>(self, depot: &mut D) -> Result<(), Failed>
        ensures ok { OnOk result (D.files depot.new ≡ putting (D.files depot.old) self.entry.name self.entry.bytes) }
        ensures err { OnErr result (IsLeft (D.files depot.old) (D.files depot.new) self.entry) }
        ensures cause { OnErr result (Rose (D.write_faults depot.old) (D.write_faults depot.new)) }
        ensures only_writes { OnlyWrites D.Depot depot.old depot.new }
    {
        self.job.write(depot, self.name)
    }
}
