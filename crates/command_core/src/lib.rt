//! The commands: what each makes of the files that it reads, the lines that answer it, and the outputs that it writes.
#![tactic(auto)]

ghost use Rattle.std.specs.Prelude.{◌≡◌, ℕ, List, IfOk, IsOk};
ghost use Rattle.outside_core.specs.Effects.{OnlyReads};
ghost use Rattle.outside_core.specs.Reads.{WhichFailed};
ghost use Rattle.command_core.specs.Answering.{reply_fields};
ghost use Rattle.command_core.specs.Replies.{IsReply};

mod answer;
mod auditing;
mod commands;
mod cutting;
mod fault;
mod laws;
mod lengthening;
mod output;
mod pieces;
mod placing;
mod publishing;
mod rebasing;
mod rehearsing;
mod sampling;
mod storing;

pub use answer::Answer;
use auditing::answer_audit;
use commands::{answer_check, answer_query, answer_query_cert, answer_show};
use cutting::answer_cut;
pub use laws::{rehearsals_go_file_by_file, replies_are_unique, replies_exist, workers_are_free};
pub use lengthening::Source;
use lengthening::{answer_gather, answer_merge};
use octets_core::NoMemory;
pub use output::{Output, SampleOutput, write_outputs};
use outside_core::Depot;
use placing::answer_place;
use publication_core::Gate;
use publishing::{answer_delta, answer_snapshot};
use rebasing::answer_rebase;
use rehearsing::answer_rehearse;
use reply_core::Reply;
use sampling::answer_sample;
use std::alloc::Global;
use std::thread::Threads;
use storing::{answer_install, answer_start};
use word_core::command::Command;

/// The answer to a command, of what its files hold.
pub fn answer_to<'a, R: Threads + Sync, G: Gate + Sync, D: Depot>(
    rt: &R,
    alloc: Global,
    gate: &G,
    command: &Command<'a>,
    depot: &mut D,
) -> Result<Answer<'a>, NoMemory>
    ensures reply { IfOk result (λ a. IsReply command.now (D.files depot.old)
        (WhichFailed D.Depot depot.old depot.new) (reply_fields a)) }
    ensures usage { command.now ≡ Command.Usage → IsOk result }
    ensures check { (name : List ℕ) → command.now ≡ Command.Check name → IsOk result }
    ensures only_reads { OnlyReads D.Depot depot.old depot.new }
{
    match command {
        Command::Usage => Ok(Answer::Reply(Reply::usage())),
        Command::Query(asked) => answer_query(alloc, asked, depot),
        Command::QueryCert(asked) => answer_query_cert(alloc, asked, depot),
        Command::Check(name) => Ok(answer_check(name, depot)),
        Command::Show(name) => answer_show(alloc, name, depot),
        Command::Snapshot(asked) => answer_snapshot(rt, alloc, gate, asked, depot),
        Command::Delta(asked) => answer_delta(rt, alloc, gate, asked, depot),
        Command::Rebase(asked) => answer_rebase(rt, alloc, gate, asked, depot),
        Command::Start(asked) => answer_start(alloc, asked, depot),
        Command::Install(asked) => answer_install(alloc, asked, depot),
        Command::Rehearse(asked) => answer_rehearse(rt, alloc, gate, asked, depot),
        Command::Sample(asked) => answer_sample(alloc, asked),
        Command::Gather(asked) => answer_gather(alloc, asked, depot),
        Command::Merge(asked) => answer_merge(alloc, asked, depot),
        Command::Cut(asked) => answer_cut(alloc, asked, depot),
        Command::Audit(asked) => answer_audit(alloc, asked, depot),
        Command::Place(asked) => Ok(answer_place(asked)),
    }
}
