//! Jobs whose end isn't written yet.

ghost use Rattle.std.specs.Prelude.{◌≡◌, ◌+◌, ◌≤◌, ◌↔◌, List, Ok, Err, IfOk, IfErr, OnOk, IsTrue};
ghost use Rattle.job_core.specs.JobLayout.{EntryText};
ghost use Rattle.job_core.specs.JobText.{JobContents, spelling};
ghost use Rattle.gather_core.specs.Opened.{count_of, entries_of, epoch_of, Holds, Opens};
ghost use Rattle.gather_core.specs.Raw.{raw_job, with_entries};

use crate::counting::count_records;
use crate::texts::EntryTexts;
use job_core::{JobFault, Limits};
use octets_core::{NoMemory, put_bytes, put_u8};

/// The text of a job up to the byte that ends it, its epoch, and how many entries it has. What it stands for is the raw
/// job that it was opened from, with the entries that were put behind its own.
#[derive(Debug, Drop)]
pub struct OpenJob {
    text: Vec<u8>,
    epoch: u64,
    entries: u64,
}

impl OpenJob {
    /// Opens the job of the bytes; or answers the first fault in their order: a field that is short or fails its test,
    /// or one thing more than a published limit. CRLs and entries are taken as they stand. No memory is taken.
    pub fn new(bytes: Vec<u8>) -> Result<OpenJob, JobFault>
        ensures ok { IfOk result (λ o. (j : JobContents) × (raw_job Limits.PUBLISHED bytes.items ≡ Ok j)
            × (bytes.items ≡ spelling j) × Opens o j) }
        ensures err { IfErr result (λ e. raw_job Limits.PUBLISHED bytes.items ≡ Err e) }
    {
        let tally = count_records(&bytes, Limits::PUBLISHED)?;
        let mut text = bytes;
        let _ = text.pop();
        Ok(OpenJob {
            text,
            epoch: tally.epoch,
            entries: tally.entries,
        })
    }

    /// The job's epoch.
    pub fn epoch(&self) -> u64
        ensures { result ≡ epoch_of self.now }
    {
        self.epoch
    }

    /// How many entries the job has.
    pub fn entries(&self) -> u64
        ensures { result ≡ entries_of self.now }
    {
        self.entries
    }

    /// Whether so many entries may be put behind those that the job has, by the published limit.
    pub fn has_room(&self, more: u64) -> bool
        ensures { IsTrue result ↔ entries_of self.now + more ≤ Limits.PUBLISHED.entries }
    {
        let limit = Limits::PUBLISHED.entries as u64;
        self.entries <= limit && more <= limit - self.entries
    }

    /// Puts entries behind those that the job has. After want of memory it stands for no job.
    pub fn add(&mut self, more: &EntryTexts) -> Result<(), NoMemory>
        requires room { entries_of self.old + count_of more.now ≤ Limits.PUBLISHED.entries }
        ensures { (j : JobContents) (entries : List EntryText) → Opens self.old j → Holds more.now entries
            → OnOk result (Opens self.new (with_entries j entries)) }
    {
        put_bytes(&mut self.text, more.records())?;
        self.entries += more.count();
        Ok(())
    }

    /// The job's bytes, with their end.
    pub fn close(self) -> Result<Vec<u8>, NoMemory>
        ensures { (j : JobContents) → Opens self j → IfOk result (λ out. out.items ≡ spelling j) }
    {
        let mut text = self.text;
        put_u8(&mut text, 0)?;
        Ok(text)
    }
}
