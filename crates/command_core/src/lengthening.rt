//! Files whose entries are put behind those of a job, file by file: pages of a log, and pieces.

ghost use Rattle.std.specs.Prelude.{◌≡◌, ◌≢◌, ◌+◌, ◌<◌, ◌≤◌, ◌∷◌, List, map, length, All, Err, Ok, IfErr, IfOk, OnOk};
ghost use Rattle.outside_core.specs.Effects.{OnlyReads};
ghost use Rattle.gather_core.specs.Pages.{EntryFits, PageFields, fields_of};
ghost use Rattle.job_core.specs.JobLayout.{EntryText};
ghost use Rattle.job_core.specs.JobText.{JobContents};
ghost use Rattle.gather_core.specs.Opened.{Holds, Opens, count_of, entries_of};
ghost use Rattle.gather_core.specs.Raw.{with_entries};
ghost use Rattle.word_core.specs.declared.command.Command.{Command};
ghost use Rattle.outside_core.specs.Reads.{WhichFailed};
ghost use Rattle.input_core.specs.Inputs.{IsInput};
ghost use Rattle.command_core.specs.Answering.{reply_fields};
ghost use Rattle.command_core.specs.Longer.{head_in as head_of, page_in as page_of, page_entries, piece_entries};
ghost use Rattle.command_core.specs.Longer.{entries_by, line_by, longer_done};
ghost use Rattle.command_core.specs.LongerJobs.{IsLonger, IsNotLonger, IsLongerReply};
ghost use Rattle.command_core.specs.Replies.{done, IsReply};

use crate::answer::Answer;
use crate::commands::refused;
use crate::output::Output;
use crate::rehearsing::BadFile;
use gather_core::{EntryTexts, MAX_PAGE, OpenJob, PageEntry, PageFault, read_page, read_piece};
use input_core::{FileFault, read_up_to};
use job_core::{Limits, What};
use line_core::{Line, gathered, merged};
use octets_core::{Key32, NoMemory};
use outside_core::Depot;
use reply_core::Reply;
use std::alloc::Global;
use word_core::command::{FileName, Gather, Merge};

/// What the files are whose entries are put behind those of a job.
#[derive(Drop)]
pub enum Source {
    /// Pages of the log with this id.
    Pages(Key32),
    /// Pieces: jobs of the same epoch without CRLs.
    Pieces,
}

/// The job of the file of this name, open for more entries. The file is taken whole, since what a reader of records
/// says of a file that isn't told is less than what a call must say of it.
fn head_in<D: Depot>(alloc: Global, depot: &mut D, name: &str) -> Result<OpenJob, FileFault>
    ensures opened { IfOk result (λ o. (j : JobContents) × Opens o j
        × IsInput (D.files depot.old) (WhichFailed D.Depot depot.old depot.new) name.now head_of (λ x. x) (Ok j)) }
    ensures refused { IfErr result (λ e. IsInput (D.files depot.old) (WhichFailed D.Depot depot.old depot.new) name.now
        head_of (λ (x : JobContents). x) (Err e)) }
    ensures only_reads { OnlyReads D.Depot depot.old depot.new }
{
    let bytes = read_up_to(alloc, depot, name, usize::MAX)?;
    Ok(OpenJob::new(bytes)?)
}

/// Refuses a page of more bytes than a page may have. No memory is taken.
fn check_length(page: &[u8]) -> Result<(), FileFault>
    ensures short { OnOk result (length page.now ≤ MAX_PAGE) }
    ensures long { IfErr result (λ e. (e ≡ FileFault.BadPage (PageFault.Size 0)) × (MAX_PAGE < length page.now)) }
{
    if page.len() > MAX_PAGE {
        return Err(FileFault::BadPage(PageFault::Size { index: 0 }));
    }
    Ok(())
}

/// The page of the file of this name.
fn page_in<D: Depot>(alloc: Global, depot: &mut D, name: &str) -> Result<Vec<PageEntry>, FileFault>
    ensures input { IsInput (D.files depot.old) (WhichFailed D.Depot depot.old depot.new) name.now
        page_of (λ v. map fields_of v.items) result }
    ensures fits { IfOk result (λ v. All EntryFits (map fields_of v.items)) }
    ensures only_reads { OnlyReads D.Depot depot.old depot.new }
{
    let bytes = read_up_to(alloc, depot, name, MAX_PAGE)?;
    check_length(&bytes)?;
    Ok(read_page(alloc, &bytes)?)
}

/// The entries of the page of the file of this name, as those of this log.
fn page_entries<D: Depot>(
    alloc: Global,
    depot: &mut D,
    log: &Key32,
    name: &str,
) -> Result<EntryTexts, FileFault>
    ensures held { IfOk result (λ t. (entries : List EntryText) × Holds t entries
        × IsInput (D.files depot.old) (WhichFailed D.Depot depot.old depot.new) name.now
        (page_entries log.now) (λ x. x) (Ok entries)) }
    ensures refused { IfErr result (λ e. IsInput (D.files depot.old) (WhichFailed D.Depot depot.old depot.new) name.now
        (page_entries log.now) (λ (x : List EntryText). x) (Err e)) }
    ensures only_reads { OnlyReads D.Depot depot.old depot.new }
{
    let page = page_in(alloc, depot, name)?;
    match EntryTexts::of_page(alloc, log, &page) {
        Ok(entries) => Ok(entries),
        Err(NoMemory) => Err(FileFault::NoMemory),
    }
}

/// The entries of the piece of the file of this name, of this epoch.
fn piece_entries<D: Depot>(
    alloc: Global,
    depot: &mut D,
    epoch: u64,
    name: &str,
) -> Result<EntryTexts, FileFault>
    ensures held { IfOk result (λ t. (entries : List EntryText) × Holds t entries
        × IsInput (D.files depot.old) (WhichFailed D.Depot depot.old depot.new) name.now
        (piece_entries epoch) (λ x. x) (Ok entries)) }
    ensures refused { IfErr result (λ e. IsInput (D.files depot.old) (WhichFailed D.Depot depot.old depot.new) name.now
        (piece_entries epoch) (λ (x : List EntryText). x) (Err e)) }
    ensures only_reads { OnlyReads D.Depot depot.old depot.new }
{
    let bytes = read_up_to(alloc, depot, name, usize::MAX)?;
    let piece = read_piece(bytes)?;
    if piece.epoch != epoch {
        let given = piece.epoch;
        return Err(FileFault::OtherEpoch { held: epoch, given });
    }
    Ok(piece.entries)
}

/// The entries of the file of this name, for a job of this epoch.
fn entries_in<D: Depot>(
    alloc: Global,
    depot: &mut D,
    source: &Source,
    epoch: u64,
    name: &str,
) -> Result<EntryTexts, FileFault>
    ensures held { IfOk result (λ t. (entries : List EntryText) × Holds t entries
        × IsInput (D.files depot.old) (WhichFailed D.Depot depot.old depot.new) name.now
        (entries_by source.now epoch) (λ x. x) (Ok entries)) }
    ensures refused { IfErr result (λ e. IsInput (D.files depot.old) (WhichFailed D.Depot depot.old depot.new) name.now
        (entries_by source.now epoch) (λ (x : List EntryText). x) (Err e)) }
    ensures only_reads { OnlyReads D.Depot depot.old depot.new }
{
    match source {
        Source::Pages(log) => page_entries(alloc, depot, log, name),
        Source::Pieces => piece_entries(alloc, depot, epoch, name),
    }
}

/// Whether entries may stand behind those of the job. No memory is taken.
fn room_for(job: &OpenJob, entries: &EntryTexts) -> Result<(), FileFault>
    ensures room { OnOk result (entries_of job.now + count_of entries.now ≤ Limits.PUBLISHED.entries) }
    ensures full { IfErr result (λ e. (e ≡ FileFault.TooMany What.Entries Limits.PUBLISHED.entries)
        × (Limits.PUBLISHED.entries < entries_of job.now + count_of entries.now)) }
{
    if job.has_room(entries.count()) {
        return Ok(());
    }
    Err(FileFault::TooMany {
        what: What::Entries,
        limit: Limits::PUBLISHED.entries,
    })
}

/// Puts entries behind those of the job, if there may be so many.
fn put_entries(job: &mut OpenJob, more: &EntryTexts) -> Result<(), FileFault>
    ensures put { OnOk result ((j : JobContents) (entries : List EntryText) → Opens job.old j → Holds more.now entries
        → (length j.entries + length entries ≤ Limits.PUBLISHED.entries) × Opens job.new (with_entries j entries)) }
    ensures full { IfErr result (λ e. e ≢ FileFault.NoMemory
        → (e ≡ FileFault.TooMany What.Entries Limits.PUBLISHED.entries)
        × ((j : JobContents) (entries : List EntryText) → Opens job.old j → Holds more.now entries
        → Limits.PUBLISHED.entries < length j.entries + length entries)) }
{
    room_for(job, more)?;
    match job.add(more) {
        Ok(()) => Ok(()),
        Err(NoMemory) => Err(FileFault::NoMemory),
    }
}

/// Puts the entries of the files behind those of the job, in their order: each file is read and its entries are
/// counted, before the next is read. Where there are too many, that is said of the name `to`.
fn put_files<'a, D: Depot>(
    alloc: Global,
    source: &Source,
    to: &'a str,
    files: &[FileName<'a>],
    job: &mut OpenJob,
    depot: &mut D,
) -> Result<(), BadFile<'a>>
    ensures put { OnOk result ((j : JobContents) → Opens job.old j → IsLonger (D.files depot.old)
        (WhichFailed D.Depot depot.old depot.new) source.now to.now files.now j job.new) }
    ensures refused { IfErr result (λ e. e.fault ≢ FileFault.NoMemory → (j : JobContents) → Opens job.old j
        → IsNotLonger (D.files depot.old) (WhichFailed D.Depot depot.old depot.new) source.now to.now files.now j
        (record { name = e.name.now; fault = e.fault })) }
    ensures only_reads { OnlyReads D.Depot depot.old depot.new }
{
    let held = job.epoch();
    for file in files {
        let name = file.as_str();
        let entries = match entries_in(alloc, depot, source, held, name) {
            Ok(entries) => entries,
            Err(fault) => return Err(BadFile { name, fault }),
        };
        match put_entries(job, &entries) {
            Ok(()) => {}
            Err(fault) => return Err(BadFile { name: to, fault }),
        }
    }
    Ok(())
}

/// The line of a longer job.
fn line_of(source: &Source, files: usize, entries: u64, bytes: u64) -> Line
    ensures { result ≡ line_by source.now files entries bytes }
{
    match source {
        Source::Pages(_) => gathered(files, entries, bytes),
        Source::Pieces => merged(files, entries, bytes),
    }
}

/// The answer where the job is closed and written to the file `to`, with the entries of so many files.
fn closed<'a>(
    alloc: Global,
    source: &Source,
    to: &'a str,
    files: &[FileName<'a>],
    before: u64,
    job: OpenJob,
) -> Result<Answer<'a>, NoMemory>
    requires { before ≤ entries_of job }
    ensures { (j : JobContents) (entries : List EntryText) → before ≡ length j.entries
        → Opens job (with_entries j entries)
        → IfOk result (λ a. reply_fields a ≡ done (longer_done source.now to.now files.now j entries)) }
{
    let count = job.entries() - before;
    let text = job.close()?;
    let line = line_of(source, files.len(), count, text.len() as u64);
    let mut outputs = Vec::with_capacity(alloc, 1)?;
    outputs.push(Output::new(to, text))?;
    Ok(Answer::Files(outputs, Reply::done(line)))
}

/// The answer where the entries of files are put behind those of the job in the file `head`, and the longer job is
/// written to the file `to`.
fn answer_longer<'a, D: Depot>(
    alloc: Global,
    source: &Source,
    head: &'a str,
    to: &'a str,
    files: &[FileName<'a>],
    depot: &mut D,
) -> Result<Answer<'a>, NoMemory>
    ensures reply { IfOk result (λ a. IsLongerReply (D.files depot.old) (WhichFailed D.Depot depot.old depot.new)
        source.now head.now to.now files.now (reply_fields a)) }
    ensures only_reads { OnlyReads D.Depot depot.old depot.new }
{
    let mut job = match head_in(alloc, depot, head) {
        Ok(job) => job,
        Err(fault) => return refused(head, fault),
    };
    let before = job.entries();
    match put_files(alloc, source, to, files, &mut job, depot) {
        Ok(()) => closed(alloc, source, to, files, before, job),
        Err(file) => refused(file.name, file.fault),
    }
}

/// The answer of `gather`.
pub fn answer_gather<'a, D: Depot>(
    alloc: Global,
    gather: &Gather<'a>,
    depot: &mut D,
) -> Result<Answer<'a>, NoMemory>
    ensures reply { IfOk result (λ a. IsReply (Command.Gather gather.now) (D.files depot.old)
        (WhichFailed D.Depot depot.old depot.new) (reply_fields a)) }
    ensures only_reads { OnlyReads D.Depot depot.old depot.new }
{
    answer_longer(
        alloc,
        &Source::Pages(gather.log),
        gather.head.as_str(),
        gather.job.as_str(),
        gather.pages.as_slice(),
        depot,
    )
}

/// The answer of `merge`.
pub fn answer_merge<'a, D: Depot>(
    alloc: Global,
    merge: &Merge<'a>,
    depot: &mut D,
) -> Result<Answer<'a>, NoMemory>
    ensures reply { IfOk result (λ a. IsReply (Command.Merge merge.now) (D.files depot.old)
        (WhichFailed D.Depot depot.old depot.new) (reply_fields a)) }
    ensures only_reads { OnlyReads D.Depot depot.old depot.new }
{
    answer_longer(
        alloc,
        &Source::Pieces,
        merge.head.as_str(),
        merge.job.as_str(),
        merge.pieces.as_slice(),
        depot,
    )
}
