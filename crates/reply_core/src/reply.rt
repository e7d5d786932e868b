//! What is said of a command: how the program ends, and the line, which is made before anything is written. A file's
//! name is lent beside the words, so that no memory is taken.

ghost use Rattle.std.specs.Prelude.{◌≡◌, ◌≤◌, length, false, IfOk, OnErr, IsErr};
ghost use Rattle.slot_core.specs.declared.fault.SlotFault.TheVariants as slots;
ghost use Rattle.line_core.specs.Lines.{verdict_line};
ghost use Rattle.reply_core.specs.Said.{is_one_of, unsaid};
ghost use Rattle.reply_core.specs.Replies.{chain_text, done, read_fault, refusal, says, slot_refusal, usage};

use input_core::FileFault;
use line_core::{
    Line, Message, Status, about_file, cert_line, coverage_line, crl_line, device_line,
    disagreement_line, epoch_line, full_line, layout_line, limit_line, line_of, page_line,
    parent_line, seeds_line, verdict_line,
};
use octets_core::{LayoutFault, NoMemory};
use slot_core::SlotFault;
use std::marker::Model;
use store_core::{Refusal, Verdict};

/// How the program ends unless a write fails, and the line that it writes to its sink.
#[derive(Drop)]
pub struct Reply<'a> {
    status: Status,
    message: Message<'a>,
}

impl<'a> Model for Reply<'a> {
    ghost use Rattle.std.specs.Prelude.{◌≡◌, false};
    ghost use Rattle.reply_core.specs.Said.{Said, is_one_of, unsaid};

    ghost Value = { Said };

    ghost view = { λ r. record { status = r.status.0; text = r.message } };

    ghost invariant = { λ r. is_one_of unsaid r.status.0 ≡ false };
}

/// The line about a file whose part, or job, a chain doesn't take.
fn chain_line(name: &str, why: Refusal) -> Message<'_>
    ensures { result ≡ chain_text name.now why }
{
    match why {
        Refusal::NotDelta => about_file("chain not-delta", name),
        Refusal::WrongParent { held, given } => parent_line(&held, &given, name),
        Refusal::OldEpoch { held, given } => epoch_line(held, given, name),
        Refusal::CoverageShrinks { log } => coverage_line(&log, name),
        Refusal::Full => about_file("chain full", name),
    }
}

impl<'a> Reply<'a> {
    /// The reply of a line.
    fn of(status: Status, message: Message<'a>) -> Reply<'a>
        requires { is_one_of unsaid status.0 ≡ false }
        ensures { result ≡ says status.0 message.entry }
    {
        Reply { status, message }
    }

    /// The reply of a line about no file.
    fn alone(status: Status, line: Line) -> Reply<'a>
        requires { is_one_of unsaid status.0 ≡ false }
        ensures { result ≡ says status.0 line }
    {
        Reply::of(status, Message::alone(line))
    }

    /// The reply to words that are no command.
    pub fn usage() -> Reply<'a>
        ensures { result ≡ usage }
    {
        Reply::alone(Status::USAGE, line_of("usage"))
    }

    /// The reply of a command that was done: this line.
    pub fn done(line: Line) -> Reply<'a>
        ensures { result ≡ done line }
    {
        Reply::alone(Status::DONE, line)
    }

    /// The reply of a command that was done: the line of a verdict.
    pub fn verdict(verdict: Verdict) -> Reply<'a>
        ensures { result ≡ done (verdict_line verdict) }
    {
        Reply::done(verdict_line(verdict))
    }

    /// The reply about a file of this name that can't be read.
    pub fn unread(name: &'a str) -> Reply<'a>
        ensures { result ≡ read_fault name.now }
    {
        Reply::of(Status::READ_FAULT, about_file("read-fault", name))
    }

    /// The reply about a file of this name that breaks its layout.
    pub fn bad_layout(name: &'a str, fault: LayoutFault) -> Reply<'a>
        ensures { result ≡ refusal name.now (FileFault.Layout fault) }
    {
        Reply::of(Status::BAD_LAYOUT, layout_line(fault, name))
    }

    /// The reply about what is wrong with the file of this name, or with the store in the device of this name. No
    /// memory is taken: want of it is handed on.
    pub fn refusal(name: &'a str, fault: FileFault) -> Result<Reply<'a>, NoMemory>
        ensures ok { IfOk result (λ r. r ≡ refusal name.now fault) }
        ensures memory { fault ≡ FileFault.NoMemory → IsErr result }
        ensures no_other { OnErr result (fault ≡ FileFault.NoMemory) }
    {
        match fault {
            FileFault::Unread => Ok(Reply::unread(name)),
            FileFault::Layout(fault) => Ok(Reply::bad_layout(name, fault)),
            FileFault::NotSnapshot => Ok(Reply::of(
                Status::CHAIN,
                about_file("chain not-snapshot", name),
            )),
            FileFault::Chain(why) => Ok(Reply::of(Status::CHAIN, chain_line(name, why))),
            FileFault::BadCrl { place, fault } => {
                Ok(Reply::of(Status::BAD_CRL, crl_line(place, fault, name)))
            }
            FileFault::OtherEpoch { held, given } => {
                Ok(Reply::of(Status::CHAIN, epoch_line(held, given, name)))
            }
            FileFault::TooMany { what, limit } => {
                Ok(Reply::of(Status::TOO_MANY, limit_line(what, limit, name)))
            }
            FileFault::Seeds { issuer, stage } => {
                Ok(Reply::alone(Status::SEEDS, seeds_line(&issuer, stage)))
            }
            FileFault::BadCert(fault) => Ok(Reply::of(Status::BAD_CERT, cert_line(fault, name))),
            FileFault::BadPage(fault) => Ok(Reply::of(Status::BAD_PAGE, page_line(fault, name))),
            FileFault::Disagrees {
                job,
                entry,
                held,
                truth,
            } => Ok(Reply::alone(
                Status::DISAGREES,
                disagreement_line(job, entry, held, truth),
            )),
            FileFault::NoMemory => Err(NoMemory),
        }
    }

    /// The reply about what is wrong with the device of this name.
    pub fn slot_refusal(name: &'a str, fault: SlotFault) -> Result<Reply<'a>, NoMemory>
        ensures ok { IfOk result (λ r. r ≡ slot_refusal name.now fault) }
        ensures memory { fault ≡ slots.NoMemory → IsErr result }
        ensures no_other { OnErr result (fault ≡ slots.NoMemory) }
    {
        match fault {
            SlotFault::BadDevice { at } => {
                Ok(Reply::of(Status::BAD_DEVICE, device_line(at, name)))
            }
            SlotFault::TooLong { capacity } => {
                Ok(Reply::of(Status::TOO_LONG, full_line(capacity, name)))
            }
            SlotFault::DiskFault => Ok(Reply::of(
                Status::DISK_FAULT,
                about_file("disk-fault", name),
            )),
            SlotFault::NoMemory => Err(NoMemory),
        }
    }

    /// How the program ends.
    pub fn status(&self) -> Status
        ensures value { result.0 ≡ self.now.status }
        ensures own { is_one_of unsaid self.now.status ≡ false }
    {
        self.status
    }

    /// What the program writes.
    pub fn message(&self) -> &Message<'a>
        ensures { result.now ≡ self.now.text }
    {
        &self.message
    }
}
