//! The top call.

ghost use Rattle.std.specs.Prelude.{◌≡◌, ◌≢◌, ◌≤◌, ℕ, List, [], map, string_bytes};
ghost use Rattle.word_core.specs.Names.{outputs_of};
ghost use Rattle.word_core.specs.Words.{command_of};
ghost use Rattle.command_core.specs.Statuses as statuses;
ghost use Rattle.clubcard_top.specs.Calls.{call_of, call_of_words};
ghost use Rattle.clubcard_top.specs.Endings.{Ends};
ghost use Rattle.clubcard_top.specs.Promises.{Ending, Frame, Histories, Outside, Places, Refusals, Successes};

use crate::laws::{bases_are_made, histories_are_made};
use crate::sending::send;
use audit_core::agreement_is_enough;
use command_core::{answer_to, replies_are_unique};
use cut_core::{
    cut_parts_say_the_truth, cuts_know_what_is_kept, cuts_leave_what_is_kept, texts_are_read,
};
use line_core::Status;
use octets_core::NoMemory;
use outside_core::{Depot, Sink};
use publication_core::{Gate, Open};
use std::alloc::Global;
use std::thread::Threads;
use word_core::command::Command;
use word_core::read_words;

/// Runs a command: writes its outputs and its answer.
fn run_command<R: Threads + Sync, G: Gate + Sync, D: Depot, K: Sink>(
    rt: &R,
    alloc: Global,
    gate: &G,
    command: &Command<'_>,
    depot: &mut D,
    out: &mut K,
) -> Status
    ensures ends { Ends (call_of D.Depot K.Sink command.now depot.old depot.new out.old out.new result.0) }
    ensures check { (name : List ℕ) → command.now ≡ Command.Check name → result.0 ≢ statuses.no_memory }
    ensures reading { outputs_of command.now ≡ [] → D.write_faults depot.new ≡ D.write_faults depot.old }
    ensures later_reads { D.read_faults depot.old ≤ D.read_faults depot.new }
    ensures later_writes { D.write_faults depot.old ≤ D.write_faults depot.new }
    ensures later_out { K.faults out.old ≤ K.faults out.new }
{
    match answer_to(rt, alloc, gate, command, depot) {
        Ok(answer) => send(rt, answer, depot, out),
        Err(NoMemory) => Status::NO_MEMORY,
    }
}

/// Reads the words and runs their command.
fn run_words<R: Threads + Sync, G: Gate + Sync, D: Depot, K: Sink>(
    rt: &R,
    alloc: Global,
    gate: &G,
    words: &[String],
    depot: &mut D,
    out: &mut K,
) -> Status
    ensures ends { Ends (call_of_words D.Depot K.Sink words.now depot.old depot.new out.old out.new result.0) }
    ensures check { (name : List ℕ) → command_of (map string_bytes words.now) ≡ Command.Check name
        → result.0 ≢ statuses.no_memory }
    ensures reading { outputs_of (command_of (map string_bytes words.now)) ≡ []
        → D.write_faults depot.new ≡ D.write_faults depot.old }
    ensures later_reads { D.read_faults depot.old ≤ D.read_faults depot.new }
    ensures later_writes { D.write_faults depot.old ≤ D.write_faults depot.new }
    ensures later_out { K.faults out.old ≤ K.faults out.new }
{
    match read_words(alloc, words) {
        Ok(command) => run_command(rt, alloc, gate, &command, depot, out),
        Err(NoMemory) => Status::NO_MEMORY,
    }
}

/// What `run` does, with a gate that each worker enters before it builds a leaf of an issuer's block: so a test can see
/// how the words reach the builder.
pub fn run_gated<R: Threads + Sync, D: Depot, K: Sink, G: Gate + Sync>(
    rt: &R,
    alloc: Global,
    words: &[String],
    depot: &mut D,
    out: &mut K,
    gate: &G,
) -> Status
    ensures successes { Successes (call_of_words D.Depot K.Sink words.now depot.old depot.new out.old out.new result.0) }
    ensures histories { Histories (call_of_words D.Depot K.Sink words.now depot.old depot.new out.old out.new result.0) }
    ensures places { Places (call_of_words D.Depot K.Sink words.now depot.old depot.new out.old out.new result.0) }
    ensures refusals { Refusals (call_of_words D.Depot K.Sink words.now depot.old depot.new out.old out.new result.0) }
    ensures outside { Outside (call_of_words D.Depot K.Sink words.now depot.old depot.new out.old out.new result.0) }
    ensures frame { Frame (call_of_words D.Depot K.Sink words.now depot.old depot.new out.old out.new result.0) }
    ensures ending { Ending (call_of_words D.Depot K.Sink words.now depot.old depot.new out.old out.new result.0) }
{
    // What the promises on histories, on refusals and on audits stand on.
    histories_are_made();
    bases_are_made();
    replies_are_unique();
    agreement_is_enough();
    // What those on places stand on.
    texts_are_read();
    cuts_leave_what_is_kept();
    cuts_know_what_is_kept();
    cut_parts_say_the_truth();
    run_words(rt, alloc, gate, words, depot, out)
}

/// Runs the words after the program's name over a depot of files: writes the files that they name as outputs, prints
/// the lines that answer them to `out`, and answers the exit status.
///
/// Each clause is a record of promises (`specs/Promises.antt`), and each promise is of the one `call` that this is: its
/// words, the files and the text before it and after it, its status, and the faults that were counted. Want of memory
/// alone is free, and it doesn't come once the first output is begun.
pub fn run<R: Threads + Sync, D: Depot, K: Sink>(
    rt: &R,
    alloc: Global,
    words: &[String],
    depot: &mut D,
    out: &mut K,
) -> Status
    // Each command that succeeds: what the files held that it read, what it printed, and what those hold that it wrote.
    // And when one must succeed: the rule for all, and what it comes to for those where it isn't plain.
    ensures successes { Successes (call_of_words D.Depot K.Sink words.now depot.old depot.new out.old out.new result.0) }
    // Over the files of a history of admitted jobs: what a success is, and when there must be one.
    ensures histories { Histories (call_of_words D.Depot K.Sink words.now depot.old depot.new out.old out.new result.0) }
    // Over the files that are cut to places and of a history that is cut so: what holds of the whole.
    ensures places { Places (call_of_words D.Depot K.Sink words.now depot.old depot.new out.old out.new result.0) }
    // Each refusal: what is wrong with which file; and that what is wrong is what is said.
    ensures refusals { Refusals (call_of_words D.Depot K.Sink words.now depot.old depot.new out.old out.new result.0) }
    // What a fault of the outside leaves, and want of memory.
    ensures outside { Outside (call_of_words D.Depot K.Sink words.now depot.old depot.new out.old out.new result.0) }
    // Which files never change, and which counts never fall.
    ensures frame { Frame (call_of_words D.Depot K.Sink words.now depot.old depot.new out.old out.new result.0) }
    // Every way to end, whatever is told: what the others stand on.
    ensures ending { Ending (call_of_words D.Depot K.Sink words.now depot.old depot.new out.old out.new result.0) }
{
    run_gated(rt, alloc, words, depot, out, &Open)
}
