//! Rehearsals: jobs that are published and installed as they are read, and then asked. No file is written.

ghost use Rattle.std.specs.Prelude.{◌≡◌, ◌≢◌, ◌≤◌, ◌++◌, [], ℕ, List, map, flat_map, length, Option, IfOk, IfErr, OnOk};
ghost use Rattle.ident_core.specs.declared.bounds.TheConstants.{MAX_WORKERS};
ghost use Rattle.outside_core.specs.Effects.{OnlyReads};
ghost use Rattle.input_core.specs.Queries.{as_query};
ghost use Rattle.publication_core.specs.Histories.{History};
ghost use Rattle.publication_core.specs.Rehearsing.{IsOf};
ghost use Rattle.word_core.specs.declared.command.Command.{Command};
ghost use Rattle.input_core.specs.Readings.{job_in as job_of};
ghost use Rattle.outside_core.specs.Reads.{WhichFailed};
ghost use Rattle.input_core.specs.Inputs.{IsBlamed, IsRead};
ghost use Rattle.command_core.specs.Commands.{IsFileRefused, input, verdict_line as line_of_verdict};
ghost use Rattle.command_core.specs.Rehearsals.{AddsJob, IsRefusedFrom, IsRehearsedFrom};
ghost use Rattle.command_core.specs.Answering.{reply_fields};
ghost use Rattle.command_core.specs.Replies.{IsReply};

use crate::answer::Answer;
use crate::commands::refused;
use crate::fault::unpublished;
use input_core::{Asked, FileFault, job_in, queries_in};
use line_core::{Line, reported, verdict_line};
use octets_core::{NoMemory, put_bytes};
use outside_core::Depot;
use publication_core::{Gate, Rehearsal};
use std::alloc::Global;
use std::thread::Threads;
use store_core::Verdict;
use word_core::command::{FileName, Rehearse};

/// The most bytes of the line of a report, and of that of a verdict.
const REPORT: usize = 320;

const VERDICT: usize = 13;

/// A file, and what is wrong with it.
#[derive(Drop)]
pub(crate) struct BadFile<'a> {
    pub name: &'a str,
    pub fault: FileFault,
}

/// The rehearsal with the job of the file of this name, and the line of its report.
fn with_file<R: Threads + Sync, G: Gate + Sync, D: Depot>(
    rt: &R,
    alloc: Global,
    gate: &G,
    before: Rehearsal,
    name: &str,
    workers: u32,
    depot: &mut D,
) -> Result<(Rehearsal, Line), FileFault>
    requires some_workers { 1 ≤ workers }
    requires few_workers { workers ≤ MAX_WORKERS }
    ensures added { IfOk result (λ x. (given : Option (List ℕ))
        × IsRead (D.files depot.old) (WhichFailed D.Depot depot.old depot.new) name.now given
        × ((h : History) → IsOf h before → AddsJob h (input name.now job_of given) x.0 x.1)) }
    ensures refused { IfErr result (λ e. e ≢ FileFault.NoMemory → (given : Option (List ℕ))
        × IsRead (D.files depot.old) (WhichFailed D.Depot depot.old depot.new) name.now given
        × ((h : History) → IsOf h before
        → IsFileRefused h name.now given (record { name = name.now; fault = e }))) }
    ensures blamed { IsBlamed (WhichFailed D.Depot depot.old depot.new) name.now FileFault.Unread result }
    ensures only_reads { OnlyReads D.Depot depot.old depot.new }
{
    let job = job_in(alloc, depot, name)?;
    let (after, report) = match before.with_job(rt, alloc, gate, job, workers) {
        Ok(added) => added,
        Err(fault) => return Err(unpublished(fault)),
    };
    let line = reported(report.epoch, report.place, &report.counts);
    Ok((after, line))
}

/// The rehearsal of the jobs of the files of these names, in their order, and the lines of their reports, which are
/// written into the text.
fn with_files<'a, R: Threads + Sync, G: Gate + Sync, D: Depot>(
    rt: &R,
    alloc: Global,
    gate: &G,
    names: &[FileName<'a>],
    workers: u32,
    text: Vec<u8>,
    depot: &mut D,
) -> Result<(Rehearsal, Vec<u8>), BadFile<'a>>
    requires empty { text.items ≡ [] }
    requires some_workers { 1 ≤ workers }
    requires few_workers { workers ≤ MAX_WORKERS }
    ensures rehearsed { IfOk result (λ x. IsRehearsedFrom (D.files depot.old)
        (WhichFailed D.Depot depot.old depot.new) names.now x.0 x.1.items) }
    ensures refused { IfErr result (λ e. e.fault ≢ FileFault.NoMemory
        → IsRefusedFrom (D.files depot.old) (WhichFailed D.Depot depot.old depot.new) names.now
        (record { name = e.name.now; fault = e.fault })) }
    ensures only_reads { OnlyReads D.Depot depot.old depot.new }
{
    let mut rehearsal = Rehearsal::new();
    let mut text = text;
    for file in names {
        let name = file.as_str();
        let (next, line) = match with_file(rt, alloc, gate, rehearsal, name, workers, depot) {
            Ok(added) => added,
            Err(fault) => return Err(BadFile { name, fault }),
        };
        let fault = FileFault::NoMemory;
        match put_bytes(&mut text, line.text()) {
            Ok(()) => rehearsal = next,
            Err(NoMemory) => return Err(BadFile { name, fault }),
        }
    }
    Ok((rehearsal, text))
}

/// Appends the line of the verdict on a query.
fn put_verdict(text: &mut Vec<u8>, rehearsal: &Rehearsal, query: &Asked) -> Result<(), NoMemory>
    ensures { OnOk result (text.new.items ≡ text.old.items
        ++ line_of_verdict rehearsal.now.parts (as_query query.now)) }
{
    let verdict = match rehearsal.store() {
        None => Verdict::NotCovered,
        Some(store) => store.says(&query.identity, query.sightings.as_slice()),
    };
    put_bytes(text, verdict_line(verdict).text())
}

/// Appends the lines of the verdicts on the queries, in their order.
fn put_verdicts(
    text: &mut Vec<u8>,
    rehearsal: &Rehearsal,
    queries: &[Asked],
) -> Result<(), NoMemory>
    ensures { OnOk result (text.new.items ≡ text.old.items
        ++ flat_map (line_of_verdict rehearsal.now.parts) (map as_query queries.now)) }
{
    for query in queries {
        put_verdict(text, rehearsal, query)?;
    }
    Ok(())
}

/// The answer of `rehearse`.
pub fn answer_rehearse<'a, R: Threads + Sync, G: Gate + Sync, D: Depot>(
    rt: &R,
    alloc: Global,
    gate: &G,
    rehearse: &Rehearse<'a>,
    depot: &mut D,
) -> Result<Answer<'a>, NoMemory>
    ensures reply { IfOk result (λ a. IsReply (Command.Rehearse rehearse.now) (D.files depot.old)
        (WhichFailed D.Depot depot.old depot.new) (reply_fields a)) }
    ensures only_reads { OnlyReads D.Depot depot.old depot.new }
{
    let queries = match queries_in(alloc, depot, rehearse.queries.as_str()) {
        Ok(queries) => queries,
        Err(fault) => return refused(rehearse.queries.as_str(), fault),
    };
    let names = rehearse.jobs.as_slice();
    let verdicts = queries.len().saturating_mul(VERDICT);
    let room = verdicts.saturating_add(names.len() * REPORT);
    let text = Vec::with_capacity(alloc, room)?;
    match with_files(rt, alloc, gate, names, rehearse.workers.get(), text, depot) {
        Ok((rehearsal, mut text)) => {
            put_verdicts(&mut text, &rehearsal, &queries)?;
            Ok(Answer::Lines(text))
        }
        Err(file) => refused(file.name, file.fault),
    }
}
