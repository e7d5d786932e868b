//! The publisher's commands: what each answers, from what its files hold.

ghost use Rattle.std.specs.Prelude.{◌≡◌, IfOk};
ghost use Rattle.outside_core.specs.Effects.{OnlyReads};
ghost use Rattle.ledger_core.specs.LedgerText.{ledger_text};
ghost use Rattle.word_core.specs.declared.command.Command.{Command};
ghost use Rattle.command_core.specs.Commands.{both_files, publication_done};
ghost use Rattle.command_core.specs.Answering.{reply_fields};
ghost use Rattle.command_core.specs.Replies.{done, IsReply};
ghost use Rattle.outside_core.specs.Reads.{WhichFailed};

use crate::answer::Answer;
use crate::commands::refused;
use crate::fault::unpublished;
use crate::output::Output;
use input_core::{job_in, ledger_in};
use ledger_core::{Ledger, encode_ledger, encode_ledger_pieces};
use line_core::{Line, reported};
use octets_core::NoMemory;
use outside_core::Depot;
use part_codec::{Sealed, encode_part};
use publication_core::{Gate, Publication, publish_after, publish_first};
use reply_core::Reply;
use std::alloc::Global;
use std::thread::Threads;
use word_core::command::{Delta, Snapshot};

/// The output of a ledger to the file of this name. Where there are more workers than one, several threads make its
/// text, and its digest is drawn as it is written.
fn ledger_output<'a, R: Threads + Sync>(
    rt: &R,
    alloc: Global,
    name: &'a str,
    ledger: &Ledger,
    workers: u32,
) -> Result<Output<'a>, NoMemory>
    ensures { IfOk result (λ o. o ≡ record { name = name.now; bytes = ledger_text ledger.now }) }
{
    if workers > 1 {
        let pieces = encode_ledger_pieces(rt, alloc, ledger)?;
        return Ok(Output::digested(name, pieces));
    }
    let bytes = encode_ledger(alloc, ledger)?;
    Ok(Output::new(name, bytes))
}

/// The answer where a part and the ledger after it are written, to files of these names, and this line once they are
/// whole.
pub(crate) fn written<'a, R: Threads + Sync>(
    rt: &R,
    alloc: Global,
    part: &'a str,
    ledger: &'a str,
    sealed: &Sealed,
    after: &Ledger,
    line: Line,
    workers: u32,
) -> Result<Answer<'a>, NoMemory>
    ensures { IfOk result (λ a. reply_fields a ≡ done (both_files part.now ledger.now sealed.now after.now line)) }
{
    let part_bytes = encode_part(alloc, sealed)?;
    let ledger_output = ledger_output(rt, alloc, ledger, after, workers)?;
    let mut outputs = Vec::with_capacity(alloc, 2)?;
    outputs.push(Output::new(part, part_bytes))?;
    outputs.push(ledger_output)?;
    Ok(Answer::Files(outputs, Reply::done(line)))
}

/// The answer where a job is published: its part and the ledger after it, to files of these names, and its report.
fn published<'a, R: Threads + Sync>(
    rt: &R,
    alloc: Global,
    part: &'a str,
    ledger: &'a str,
    publication: &Publication,
    workers: u32,
) -> Result<Answer<'a>, NoMemory>
    ensures { IfOk result (λ a. reply_fields a ≡ done (publication_done part.now ledger.now publication.now)) }
{
    let sealed = publication.sealed();
    let epoch = sealed.part().head().epoch();
    let report = reported(epoch, publication.place(), publication.counts());
    written(
        rt,
        alloc,
        part,
        ledger,
        sealed,
        publication.ledger(),
        report,
        workers,
    )
}

/// The answer of `snapshot`.
pub fn answer_snapshot<'a, R: Threads + Sync, G: Gate + Sync, D: Depot>(
    rt: &R,
    alloc: Global,
    gate: &G,
    snapshot: &Snapshot<'a>,
    depot: &mut D,
) -> Result<Answer<'a>, NoMemory>
    ensures reply { IfOk result (λ a. IsReply (Command.Snapshot snapshot.now) (D.files depot.old)
        (WhichFailed D.Depot depot.old depot.new) (reply_fields a)) }
    ensures only_reads { OnlyReads D.Depot depot.old depot.new }
{
    let job = match job_in(alloc, depot, snapshot.job.as_str()) {
        Ok(job) => job,
        Err(fault) => return refused(snapshot.job.as_str(), fault),
    };
    match publish_first(rt, alloc, gate, job, snapshot.workers.get()) {
        Ok(publication) => published(
            rt,
            alloc,
            snapshot.part.as_str(),
            snapshot.ledger.as_str(),
            &publication,
            snapshot.workers.get(),
        ),
        Err(fault) => refused(snapshot.job.as_str(), unpublished(fault)),
    }
}

/// The answer of `delta`.
pub fn answer_delta<'a, R: Threads + Sync, G: Gate + Sync, D: Depot>(
    rt: &R,
    alloc: Global,
    gate: &G,
    delta: &Delta<'a>,
    depot: &mut D,
) -> Result<Answer<'a>, NoMemory>
    ensures reply { IfOk result (λ a. IsReply (Command.Delta delta.now) (D.files depot.old)
        (WhichFailed D.Depot depot.old depot.new) (reply_fields a)) }
    ensures only_reads { OnlyReads D.Depot depot.old depot.new }
{
    let job = match job_in(alloc, depot, delta.job.as_str()) {
        Ok(job) => job,
        Err(fault) => return refused(delta.job.as_str(), fault),
    };
    let ledger = match ledger_in(alloc, depot, delta.ledger.as_str()) {
        Ok(ledger) => ledger,
        Err(fault) => return refused(delta.ledger.as_str(), fault),
    };
    match publish_after(rt, alloc, gate, ledger, job, delta.workers.get()) {
        Ok(publication) => published(
            rt,
            alloc,
            delta.part.as_str(),
            delta.new_ledger.as_str(),
            &publication,
            delta.workers.get(),
        ),
        Err(fault) => refused(delta.job.as_str(), unpublished(fault)),
    }
}
