//! A job's records, one by one.

ghost use Rattle.std.specs.Prelude.{◌≡◌, ◌≢◌, ◌+◌, ◌-◌, ◌≤◌, ◌<◌, ◌^◌, ◌↔◌, ℕ, List, [], take, length, Option, None};
ghost use Rattle.std.specs.Prelude.{Some, Ok, Err, IfOk, IfErr, OnOk};
ghost use Rattle.outside_core.specs.Standing.{place_of, StandsIn};
ghost use Rattle.outside_core.specs.Pulling.{Pulled};
ghost use Rattle.job_core.specs.Pulling.{Blames};
ghost use Rattle.job_core.specs.JobFields.{AreWithin};
ghost use Rattle.job_core.specs.Reader.{StandsFor, fault_of, limits_of, IsNew, HasEnded, IsBegin, FitsRecord, ReadsNext};

use crate::bounds::Limits;
use crate::fault::JobFault;
use crate::fetch::fetch_end;
use crate::partial::{Numbers, no_numbers};
use crate::raw::{RawCrl, RawEntry, no_entry};
use crate::records::{Item, fetch_opening, next_item_from};
use ident_core::Range;
use outside_core::{Depot, Feed};
use std::alloc::Global;

/// What a reader of a job gives: first the opening, then record by record, and then the end.
#[derive(Debug, Drop)]
pub enum Record {
    /// The epoch, and the moment in milliseconds since 1970-01-01 00:00:00 UTC.
    Begin { epoch: u64, moment: u64 },
    Range(Range),
    Crl(RawCrl),
    Entry(RawEntry),
    /// The end of the job, behind which the file ends.
    End,
}

/// How far a reader is.
#[derive(Clone, Copy, Debug)]
enum Stage {
    Opening,
    Records,
    Ended,
    Failed(JobFault),
}

/// Reads a job record by record off a feed, and holds no record that it gave. For a command that goes through a job's
/// records without holding the job, as one that gathers the pages of a log into a job; `read_job_from` is for those
/// that want all of it.
#[derive(Drop)]
pub struct JobReader {
    alloc: Global,
    limits: Limits,
    numbers: Numbers,
    stage: Stage,
}

impl JobReader {
    /// A reader that has read nothing.
    pub fn new(alloc: Global, limits: Limits) -> JobReader
        ensures stands { StandsFor result [] }
        ensures limits { limits_of result ≡ limits }
        ensures going { fault_of result ≡ None }
        ensures first { IsNew result }
    {
        JobReader {
            alloc,
            limits,
            numbers: no_numbers(),
            stage: Stage::Opening,
        }
    }

    fn begin<D: Depot>(&mut self, feed: &mut Feed<'_, D>) -> Result<Record, JobFault>
        requires { self.old.stage ≡ Stage.Opening }
        ensures pulled { Pulled D.Depot feed.old feed.new }
        ensures blames { Blames D.Depot feed.old feed.new result }
        ensures limits { limits_of self.new ≡ limits_of self.old }
        ensures next { ReadsNext D.Depot self.old self.new feed.old feed.new result }
        ensures stage { IfOk result (λ r. (self.new.stage ≡ Stage.Records) × (r ≢ Record.End) × IsBegin r) }
        ensures fits { IfOk result FitsRecord }
    {
        let (epoch, moment) = fetch_opening(feed)?;
        self.stage = Stage::Records;
        Ok(Record::Begin { epoch, moment })
    }

    fn record<D: Depot>(&mut self, feed: &mut Feed<'_, D>) -> Result<Record, JobFault>
        requires { self.old.stage ≡ Stage.Records }
        ensures pulled { Pulled D.Depot feed.old feed.new }
        ensures blames { Blames D.Depot feed.old feed.new result }
        ensures limits { limits_of self.new ≡ limits_of self.old }
        ensures next { ReadsNext D.Depot self.old self.new feed.old feed.new result }
        ensures stage { IfOk result (λ r. (fault_of self.new ≡ None) × (r ≡ Record.End ↔ self.new.stage ≡ Stage.Ended)
            × (IsBegin r → ⊥) × (IsNew self.new → ⊥)) }
        ensures fits { IfOk result FitsRecord }
    {
        let mut entry = no_entry(self.alloc);
        match next_item_from(
            self.alloc,
            &mut self.numbers,
            feed,
            &self.limits,
            &mut entry,
        )? {
            None => {
                fetch_end(feed)?;
                self.stage = Stage::Ended;
                Ok(Record::End)
            }
            Some(Item::Range(range)) => Ok(Record::Range(range)),
            Some(Item::Crl(crl)) => Ok(Record::Crl(crl)),
            Some(Item::Entry) => Ok(Record::Entry(entry)),
        }
    }

    /// Keeps the fault, if it is one.
    fn keep(&mut self, answer: Result<Record, JobFault>) -> Result<Record, JobFault>
        ensures same { result ≡ answer }
        ensures ok { OnOk answer (self.new ≡ self.old) }
        ensures err { IfErr answer (λ e. self.new ≡ record self.old { stage = Stage.Failed e }) }
    {
        if let Err(fault) = &answer {
            self.stage = Stage::Failed(*fault);
        }
        answer
    }

    /// The next record: `Begin` first, and `End` once the end of the file was seen behind the end of the job, and again
    /// from then on. Ranges, CRLs and entries are counted, serials are not. A fault is answered again by each later call.
    pub fn next<D: Depot>(&mut self, feed: &mut Feed<'_, D>) -> Result<Record, JobFault>
        // Where files are told, the bytes before the feed's place are those that the reader has read.
        requires stands { fault_of self.old ≡ None → (file : List ℕ) → StandsIn D.Depot feed.old file
            → StandsFor self.old (take (place_of feed.old) file) }
        ensures pulled { Pulled D.Depot feed.old feed.new }
        ensures blames { fault_of self.old ≡ None → Blames D.Depot feed.old feed.new result }
        ensures limits { limits_of self.new ≡ limits_of self.old }
        ensures next { fault_of self.old ≡ None → (HasEnded self.old → ⊥) → ReadsNext D.Depot self.old self.new feed.old feed.new result }
        // The first record, and no other, is the opening; and what each holds fits its fields, whatever the file.
        ensures first { IfOk result (λ r. (IsBegin r ↔ IsNew self.old) × (IsNew self.new → ⊥)) }
        ensures fits { IfOk result FitsRecord }
        ensures kept { IfErr result (λ e. fault_of self.new ≡ Some e) }
        ensures going { IfOk result (λ r. (fault_of self.new ≡ None) × (r ≡ Record.End ↔ HasEnded self.new)) }
        // After the end and after a fault nothing is read.
        ensures ended { HasEnded self.old → (result ≡ Ok Record.End) × (self.new ≡ self.old) × (feed.new ≡ feed.old) }
        ensures again { (e : JobFault) → fault_of self.old ≡ Some e → (result ≡ Err e) × (self.new ≡ self.old) × (feed.new ≡ feed.old) }
    {
        match self.stage {
            Stage::Opening => {
                let answer = self.begin(feed);
                self.keep(answer)
            }
            Stage::Records => {
                let answer = self.record(feed);
                self.keep(answer)
            }
            Stage::Ended => Ok(Record::End),
            Stage::Failed(fault) => Err(fault),
        }
    }
}
