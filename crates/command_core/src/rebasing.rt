//! The commands that begin a chain anew: what they answer, from what their ledger holds.

ghost use Rattle.std.specs.Prelude.{◌≡◌, IfOk};
ghost use Rattle.outside_core.specs.Effects.{OnlyReads};
ghost use Rattle.word_core.specs.declared.command.Command.{Command};
ghost use Rattle.command_core.specs.Answering.{reply_fields};
ghost use Rattle.command_core.specs.Rebasings.{base_line, base_done, cut_without};
ghost use Rattle.command_core.specs.Replies.{done, IsReply};
ghost use Rattle.publication_core.specs.LeftOut.{cut_of};
ghost use Rattle.outside_core.specs.Reads.{WhichFailed};

use crate::answer::Answer;
use crate::commands::refused;
use crate::fault::unrebased;
use crate::publishing::written;
use input_core::ledger_in;
use line_core::{
    Base, Line, rebased as rebased_line, rebased_without as rebased_without_line,
    split as split_line,
};
use octets_core::NoMemory;
use outside_core::Depot;
use publication_core::{BaseCounts, BasePublication, Gate, Issuers, LeftOut, publish_base};
use std::alloc::{AllocError, Global};
use std::thread::Threads;
use word_core::command::{Left, Rebase};

/// The line of a base of this epoch, without what is left out.
fn line_of(left: &Left, epoch: u64, counts: &BaseCounts) -> Line
    ensures { result ≡ base_line left.now epoch counts.now }
{
    let base = Base {
        epoch,
        issuers: counts.issuers,
        universe: counts.universe,
        revoked: counts.revoked,
        pruned: counts.pruned,
    };
    match left {
        Left::Issuers(issuers) => match issuers.as_slice() {
            [] => rebased_line(&base),
            [_, ..] => rebased_without_line(&base, counts.left),
        },
        Left::OtherPlaces { count, place, .. } => {
            split_line(*place, count.get(), &base, counts.left)
        }
    }
}

/// What is left out, as it is asked of a ledger.
fn left_out_of(alloc: Global, left: &Left) -> Result<LeftOut, AllocError>
    ensures { IfOk result (λ l. cut_of l ≡ cut_without left.now) }
{
    match left {
        Left::Issuers(issuers) => Ok(LeftOut::Issuers(Issuers::new(alloc, issuers.as_slice())?)),
        Left::OtherPlaces { by, count, place } => Ok(LeftOut::OtherPlaces {
            by: *by,
            count: *count,
            place: *place,
        }),
    }
}

/// The answer where a chain begins anew: its part and the ledger after it, and how many they have of each.
fn rebased<'a, R: Threads + Sync>(
    rt: &R,
    alloc: Global,
    rebase: &Rebase<'a>,
    publication: &BasePublication,
) -> Result<Answer<'a>, NoMemory>
    ensures { IfOk result (λ a. reply_fields a ≡ done (base_done rebase.now publication.now)) }
{
    let sealed = publication.sealed();
    let epoch = sealed.part().head().epoch();
    let line = line_of(&rebase.left, epoch, publication.counts());
    written(
        rt,
        alloc,
        rebase.part.as_str(),
        rebase.new_ledger.as_str(),
        sealed,
        publication.ledger(),
        line,
        rebase.workers.get(),
    )
}

/// The answer of `rebase`, `rebase-without` and `split`.
pub fn answer_rebase<'a, R: Threads + Sync, G: Gate + Sync, D: Depot>(
    rt: &R,
    alloc: Global,
    gate: &G,
    rebase: &Rebase<'a>,
    depot: &mut D,
) -> Result<Answer<'a>, NoMemory>
    ensures reply { IfOk result (λ a. IsReply (Command.Rebase rebase.now) (D.files depot.old)
        (WhichFailed D.Depot depot.old depot.new) (reply_fields a)) }
    ensures only_reads { OnlyReads D.Depot depot.old depot.new }
{
    let ledger = match ledger_in(alloc, depot, rebase.ledger.as_str()) {
        Ok(ledger) => ledger,
        Err(fault) => return refused(rebase.ledger.as_str(), fault),
    };
    let left_out = left_out_of(alloc, &rebase.left)?;
    match publish_base(
        rt,
        alloc,
        gate,
        ledger,
        rebase.moment,
        &left_out,
        rebase.workers.get(),
    ) {
        Ok(publication) => rebased(rt, alloc, rebase, &publication),
        Err(fault) => refused(rebase.ledger.as_str(), unrebased(fault)),
    }
}
