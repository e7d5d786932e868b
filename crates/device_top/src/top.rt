//! The top call of the commands on a device.

ghost use Rattle.std.specs.Prelude.{◌≡◌, ◌≤◌, List, ℕ, Some, IfOk, OnErr, map, string_bytes};
ghost use Rattle.outside_core.specs.Effects.{OnlyReads};
ghost use Rattle.slot_core.specs.Disk.{Quiet};
ghost use Rattle.outside_core.specs.Reads.{WhichFailed};
ghost use Rattle.word_core.specs.declared.device.InstallPart.{InstallPart};
ghost use Rattle.word_core.specs.declared.command.Query.{Query};
ghost use Rattle.word_core.specs.Devices.{device_command_of};
ghost use Rattle.word_core.specs.declared.device.DeviceCommand.TheVariants as commands;
ghost use Rattle.device_top.specs.Comes.{Comes};
ghost use Rattle.device_top.specs.Holding.{Answers};
ghost use Rattle.device_top.specs.Calls.{Ends, IsPrinted, SaysWhich, call, call_of, device_of, file_of, printing};
ghost use Rattle.device_top.specs.Crashes.{Survives};
ghost use Rattle.device_top.specs.Promises.{Crashes, Ending, Promises, Refusals};

use crate::commands::{answer_format, answer_install, answer_query};
use line_core::Status;
use octets_core::NoMemory;
use outside_core::{Depot, Failed, Sink};
use publication_core::{parts_are_chains, verdicts_are_the_truth};
use reply_core::Reply;
use slot_core::Disk;
use std::alloc::Global;
use std::thread::Threads;
use store_core::stores_are_read_back;
use word_core::{DeviceCommand, read_device_words};

/// The reply to a command.
fn answer_for<'a, D: Disk, P: Depot>(
    alloc: Global,
    command: &DeviceCommand<'a>,
    disk: &mut D,
    depot: &mut P,
) -> Result<Reply<'a>, NoMemory>
    ensures answers { IfOk result (λ r.
        Answers (Comes command.now (P.files depot.old)
        (WhichFailed P.Depot depot.old depot.new) (D.state disk.old).told)
        (device_of command.now) (D.state disk.old) (D.state disk.new) r) }
    ensures blamed { IfOk result (λ r. SaysWhich (WhichFailed P.Depot depot.old depot.new) (file_of command.now) r) }
    ensures survives { (i : InstallPart) → command.now ≡ commands.Install i
        → Survives (P.files depot.old) (WhichFailed P.Depot depot.old depot.new) i.part
        (D.state disk.old) (D.state disk.new) }
    ensures quiet { (q : Query) → command.now ≡ commands.Query q → Quiet (D.state disk.old) (D.state disk.new) }
    ensures memory { OnErr result (Quiet (D.state disk.old) (D.state disk.new)) }
    ensures later { (D.state disk.old).faults ≤ (D.state disk.new).faults }
    ensures only_reads { OnlyReads P.Depot depot.old depot.new }
{
    match command {
        DeviceCommand::Usage => Ok(Reply::usage()),
        DeviceCommand::Format(asked) => answer_format(alloc, asked, disk, depot),
        DeviceCommand::Install(asked) => answer_install(alloc, asked, disk, depot),
        DeviceCommand::Query(asked) => answer_query(alloc, asked, disk),
    }
}

/// Prints the line, behind which the call ends with the status.
fn send<K: Sink>(reply: &Reply<'_>, out: &mut K) -> Status
    ensures sent { IsPrinted (printing K.Sink out.old out.new result.0) reply.now }
    ensures later { K.faults out.old ≤ K.faults out.new }
{
    match reply.message().write(out) {
        Ok(()) => reply.status(),
        Err(Failed) => Status::WRITE_FAULT,
    }
}

/// Runs a command, and prints what it says.
fn run_command<D: Disk, P: Depot, K: Sink>(
    alloc: Global,
    command: &DeviceCommand<'_>,
    disk: &mut D,
    depot: &mut P,
    out: &mut K,
) -> Status
    ensures ends { Ends (call_of P.Depot K.Sink command.now (D.state disk.old) (D.state disk.new)
        depot.old depot.new out.old out.new result.0) }
    ensures survives { (i : InstallPart) → command.now ≡ commands.Install i
        → Survives (P.files depot.old) (WhichFailed P.Depot depot.old depot.new) i.part
        (D.state disk.old) (D.state disk.new) }
    ensures quiet { (q : Query) → command.now ≡ commands.Query q → Quiet (D.state disk.old) (D.state disk.new) }
    ensures later { (D.state disk.old).faults ≤ (D.state disk.new).faults }
    ensures later_out { K.faults out.old ≤ K.faults out.new }
    ensures only_reads { OnlyReads P.Depot depot.old depot.new }
{
    match answer_for(alloc, command, disk, depot) {
        Ok(reply) => send(&reply, out),
        Err(NoMemory) => Status::NO_MEMORY,
    }
}

/// Reads the words and runs their command.
fn run_words<D: Disk, P: Depot, K: Sink>(
    alloc: Global,
    words: &[String],
    disk: &mut D,
    depot: &mut P,
    out: &mut K,
) -> Status
    ensures ends { Ends (call P.Depot K.Sink words.now (D.state disk.old) (D.state disk.new)
        depot.old depot.new out.old out.new result.0) }
    ensures survives { (i : InstallPart) → device_command_of (map string_bytes words.now) ≡ commands.Install i
        → Survives (P.files depot.old) (WhichFailed P.Depot depot.old depot.new) i.part
        (D.state disk.old) (D.state disk.new) }
    ensures quiet { (q : Query) → device_command_of (map string_bytes words.now) ≡ commands.Query q
        → Quiet (D.state disk.old) (D.state disk.new) }
    ensures later { (D.state disk.old).faults ≤ (D.state disk.new).faults }
    ensures later_out { K.faults out.old ≤ K.faults out.new }
    ensures only_reads { OnlyReads P.Depot depot.old depot.new }
{
    match read_device_words(alloc, words) {
        Ok(command) => run_command(alloc, &command, disk, depot, out),
        Err(NoMemory) => Status::NO_MEMORY,
    }
}

/// Runs the words after the program's name, which are those of a command on a device: the disk is the device's, and the
/// depot has the other files. It prints the line that answers them to `out`, and answers the exit status. The runtime
/// is the one that `run` takes too; no thread is started.
pub fn run_device<R: Threads + Sync, D: Disk, P: Depot, K: Sink>(
    _rt: &R,
    alloc: Global,
    words: &[String],
    disk: &mut D,
    depot: &mut P,
    out: &mut K,
) -> Status
    // What each success is, where the disk tells its bytes, and the truth of a history.
    ensures promises { (device : List ℕ) → (D.state disk.old).told ≡ Some device
        → Promises (call P.Depot K.Sink words.now (D.state disk.old) (D.state disk.new)
        depot.old depot.new out.old out.new result.0) device }
    // What each other status says, and that its cause is so, told or not.
    ensures refusals { Refusals (call P.Depot K.Sink words.now (D.state disk.old) (D.state disk.new)
        depot.old depot.new out.old out.new result.0) }
    // What a crash may leave at a moment of an install.
    ensures crashes { Crashes (call P.Depot K.Sink words.now (D.state disk.old) (D.state disk.new)
        depot.old depot.new out.old out.new result.0) }
    // Every way to end, with its cause: what the promises follow from; which statuses there are; and that what comes of
    // the command must be said and done, where no fault is counted.
    ensures ending { Ending (call P.Depot K.Sink words.now (D.state disk.old) (D.state disk.new)
        depot.old depot.new out.old out.new result.0) }
    // A query changes nothing of the disk.
    ensures quiet { (q : Query) → device_command_of (map string_bytes words.now) ≡ commands.Query q
        → Quiet (D.state disk.old) (D.state disk.new) }
    // No other file changes, and no count falls.
    ensures only_reads { OnlyReads P.Depot depot.old depot.new }
    ensures later { (D.state disk.old).faults ≤ (D.state disk.new).faults }
    ensures later_out { K.faults out.old ≤ K.faults out.new }
{
    // What the promise on histories stands on.
    parts_are_chains();
    verdicts_are_the_truth();
    stores_are_read_back();
    run_words(alloc, words, disk, depot, out)
}
