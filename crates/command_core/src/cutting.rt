//! Jobs that are cut to places, each piece to a file.

ghost use Rattle.std.specs.Prelude.{◌≡◌, ◌≤◌, length, Some, Ok, Err, IfErr, IfOk};
ghost use Rattle.outside_core.specs.Effects.{OnlyReads};
ghost use Rattle.outside_core.specs.Reads.{WhichFailed};
ghost use Rattle.job_core.specs.JobText.{JobContents};
ghost use Rattle.place_core.specs.declared.place.By.{By as Way};
ghost use Rattle.piece_core.specs.Pieces.{AreOf};
ghost use Rattle.word_core.specs.declared.command.Command.{Command};
ghost use Rattle.word_core.specs.declared.command.TheConstants.{MAX_PIECES};
ghost use Rattle.input_core.specs.Inputs.{IsInput};
ghost use Rattle.command_core.specs.Answering.{reply_fields};
ghost use Rattle.command_core.specs.Longer.{head_in};
ghost use Rattle.command_core.specs.Cuts.{cut_done, files_of as named_files};
ghost use Rattle.command_core.specs.Replies.{done, IsReply};

use crate::answer::Answer;
use crate::commands::refused;
use crate::output::Output;
use input_core::{FileFault, read_up_to};
use line_core::cut;
use octets_core::NoMemory;
use outside_core::Depot;
use piece_core::{Pieces, cut_text};
use place_core::{By, PlaceCount};
use reply_core::Reply;
use std::alloc::Global;
use word_core::command::{Cut, FileName};

/// The pieces of the job of the file of this name.
fn pieces_in<D: Depot>(
    alloc: Global,
    depot: &mut D,
    by: By,
    count: PlaceCount,
    name: &str,
) -> Result<Pieces, FileFault>
    ensures cut { IfOk result (λ x. (j : JobContents) × AreOf by count j x
        × IsInput (D.files depot.old) (WhichFailed D.Depot depot.old depot.new) name.now head_in (λ k. k) (Ok j)) }
    ensures refused { IfErr result (λ e. IsInput (D.files depot.old) (WhichFailed D.Depot depot.old depot.new) name.now
        head_in (λ (k : JobContents). k) (Err e)) }
    ensures only_reads { OnlyReads D.Depot depot.old depot.new }
{
    let bytes = read_up_to(alloc, depot, name, usize::MAX)?;
    Ok(cut_text(alloc, &bytes, by, count)?)
}

/// The files of these names with these texts, in their order.
fn files_of<'a>(
    alloc: Global,
    names: &[FileName<'a>],
    texts: Vec<Vec<u8>>,
) -> Result<Vec<Output<'a>>, NoMemory>
    requires { length texts.items ≡ length names.now }
    ensures { IfOk result (λ files. files.items ≡ named_files names.now texts.items) }
{
    let mut files = Vec::with_capacity(alloc, names.len())?;
    let mut left = texts.into_iter();
    for name in names {
        match left.next() {
            Some(text) => files.push(Output::new(name.as_str(), text))?,
            None => return Ok(files),
        }
    }
    Ok(files)
}

/// The answer where the pieces are written to the files of these names.
fn written<'a>(
    alloc: Global,
    names: &[FileName<'a>],
    pieces: Pieces,
) -> Result<Answer<'a>, NoMemory>
    requires { length pieces.texts.items ≡ length names.now }
    ensures { (by : Way) (j : JobContents) → AreOf by (length names.now) j pieces
        → IfOk result (λ a. reply_fields a ≡ done (cut_done by names.now j)) }
{
    let line = cut(names.len(), pieces.entries, pieces.bytes);
    let files = files_of(alloc, names, pieces.texts)?;
    Ok(Answer::Files(files, Reply::done(line)))
}

/// As many places as there are names.
fn places_of(names: &[FileName<'_>]) -> Option<PlaceCount>
    requires { (1 ≤ length names.now) × (length names.now ≤ MAX_PIECES) }
    ensures { result ≡ Some (length names.now) }
{
    PlaceCount::new(names.len() as u32)
}

/// The answer of `cut`.
pub fn answer_cut<'a, D: Depot>(
    alloc: Global,
    cut: &Cut<'a>,
    depot: &mut D,
) -> Result<Answer<'a>, NoMemory>
    ensures reply { IfOk result (λ a. IsReply (Command.Cut cut.now) (D.files depot.old)
        (WhichFailed D.Depot depot.old depot.new) (reply_fields a)) }
    ensures only_reads { OnlyReads D.Depot depot.old depot.new }
{
    let names = cut.pieces.as_slice();
    // There are as many places, so this isn't reached.
    let Some(count) = places_of(names) else {
        return Ok(Answer::Reply(Reply::usage()));
    };
    match pieces_in(alloc, depot, cut.by, count, cut.job.as_str()) {
        Ok(pieces) => written(alloc, names, pieces),
        Err(fault) => refused(cut.job.as_str(), fault),
    }
}
