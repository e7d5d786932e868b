//! Stores that are audited by jobs. The store is read, and then the jobs, file by file.

ghost use Rattle.std.specs.Prelude.{◌≡◌, ◌≢◌, ◌≤◌, ◌++◌, ◌∷◌, [], List, map, length, All, Option, Some, Result, Ok, IfOk, IfErr, OnOk};
ghost use Rattle.std.specs.Option.{option_map};
ghost use Rattle.outside_core.specs.Effects.{OnlyReads};
ghost use Rattle.octets_core.specs.Reading.{GivesUnless};
ghost use Rattle.job_core.specs.JobFields.{crl_view, fields_of_job, JobFields};
ghost use Rattle.job_core.specs.JobLayout.{kept};
ghost use Rattle.job_core.specs.JobMeaning.{kept_in};
ghost use Rattle.audit_core.specs.Auditing.{entries_of};
ghost use Rattle.audit_core.specs.Checking.{truth_by};
ghost use Rattle.word_core.specs.declared.command.Command.{Command};
ghost use Rattle.outside_core.specs.Reads.{WhichFailed};
ghost use Rattle.command_core.specs.Answering.{reply_fields};
ghost use Rattle.command_core.specs.Audits.{bad_crl as bad_crl_of, counted, of_audit, passed, serials_of, unless, MakesAudit};
ghost use Rattle.command_core.specs.AuditJobs.{AreAdded, AreCounted, AreNotAdded, IsAdded, IsNotAdded, IsReadable, NamesOneOf};
ghost use Rattle.command_core.specs.ReplyFields.{Done, NamedFault};
ghost use Rattle.command_core.specs.Replies.{reply_of, IsReply};

use crate::answer::Answer;
use crate::commands::refused;
use crate::fault::unadmitted;
use crate::rehearsing::BadFile;
use audit_core::{AuditFault, audit};
use input_core::{FileFault, job_in, store_in};
use job_core::{Job, JobCrl, Limits, What};
use line_core::audited as audited_line;
use octets_core::NoMemory;
use outside_core::Depot;
use reply_core::Reply;
use std::alloc::Global;
use std::marker::Model;
use store_core::{Refusal, Store, Verdict};
use universe_core::bad_crl;
use word_core::command::{Audit, FileName};

/// How many serials are kept of a CRL.
fn kept_of(crl: &JobCrl) -> usize
    ensures { result ≡ kept (crl_view crl.now).outcome }
{
    match &crl.outcome {
        Ok(crl) => crl.serials.len(),
        Err(_) => 0,
    }
}

/// How many serials are kept of CRLs together.
fn kept_serials(crls: &[JobCrl]) -> usize
    requires { kept_in (map crl_view crls.now) ≤ Limits.PUBLISHED.serials }
    ensures { result ≡ kept_in (map crl_view crls.now) }
{
    let mut serials = 0;
    for crl in crls {
        serials += kept_of(crl);
    }
    serials
}

/// Jobs that were read one after the other, and how many entries and kept serials they have together.
#[derive(Drop)]
struct AuditJobs {
    jobs: Vec<Job>,
    entries: usize,
    serials: usize,
}

impl Model for AuditJobs {
    ghost use Rattle.std.specs.Prelude.{◌≡◌, List, map};
    ghost use Rattle.job_core.specs.JobFields.{fields_of_job, JobFields};
    ghost use Rattle.audit_core.specs.Auditing.{entries_of};
    ghost use Rattle.command_core.specs.Audits.{serials_of};
    ghost use Rattle.command_core.specs.AuditJobs.{AreCounted};

    ghost Value = { List JobFields };

    ghost view = { λ a. map fields_of_job a.jobs.items };

    ghost invariant = { λ a. (a.entries ≡ entries_of (map fields_of_job a.jobs.items))
        × (a.serials ≡ serials_of (map fields_of_job a.jobs.items)) × AreCounted (map fields_of_job a.jobs.items) };
}

impl AuditJobs {
    /// No job, and room for so many.
    fn new(alloc: Global, count: usize) -> Result<AuditJobs, NoMemory>
        ensures { IfOk result (λ a. a ≡ []) }
    {
        let jobs = Vec::with_capacity(alloc, count)?;
        Ok(AuditJobs {
            jobs,
            entries: 0,
            serials: 0,
        })
    }

    /// How many entries and kept serials the jobs have together with this one, if these are no more than one may have.
    /// No memory is taken.
    fn sums_with(&self, job: &Job) -> Result<(usize, usize), FileFault>
        requires { IsReadable (fields_of_job job.now) }
        ensures sums { IfOk result (λ x. (x.0 ≡ entries_of (self.now ++ fields_of_job job.now ∷ []))
            × (x.1 ≡ serials_of (self.now ++ fields_of_job job.now ∷ []))
            × (x.0 ≤ Limits.PUBLISHED.entries) × (x.1 ≤ Limits.PUBLISHED.serials)) }
        ensures over { IfErr result (λ e. passed (self.now ++ fields_of_job job.now ∷ []) ≡ Some e) }
    {
        let entries = self.entries + job.entries.len();
        let limit = Limits::PUBLISHED.entries;
        if entries > limit as usize {
            let what = What::Entries;
            return Err(FileFault::TooMany { what, limit });
        }
        let serials = self.serials + kept_serials(&job.crls);
        let limit = Limits::PUBLISHED.serials;
        if serials > limit as usize {
            let what = What::Serials;
            return Err(FileFault::TooMany { what, limit });
        }
        Ok((entries, serials))
    }

    /// Adds a job, if together the jobs then have no more entries, and no more kept serials, than one may have.
    fn add(&mut self, job: Job) -> Result<(), FileFault>
        requires { IsReadable (fields_of_job job) }
        ensures gives { GivesUnless FileFault.NoMemory (λ u. fields_of_job job) result
            (counted self.old (Ok (fields_of_job job))) }
        ensures added { OnOk result (self.new ≡ self.old ++ fields_of_job job ∷ []) }
    {
        let (entries, serials) = self.sums_with(&job)?;
        if self.jobs.push(job).is_err() {
            return Err(FileFault::NoMemory);
        }
        self.entries = entries;
        self.serials = serials;
        Ok(())
    }

    /// Reads the job of the file of this name, and adds it.
    fn add_file<D: Depot>(
        &mut self,
        alloc: Global,
        depot: &mut D,
        name: &str,
    ) -> Result<(), FileFault>
        ensures added { OnOk result (IsAdded (D.files depot.old) (WhichFailed D.Depot depot.old depot.new)
            name.now self.old self.new) }
        ensures refused { IfErr result (λ e. e ≢ FileFault.NoMemory → IsNotAdded (D.files depot.old)
            (WhichFailed D.Depot depot.old depot.new) name.now self.old e) }
        ensures only_reads { OnlyReads D.Depot depot.old depot.new }
    {
        let job = job_in(alloc, depot, name)?;
        self.add(job)
    }

    /// Reads the jobs of the files of these names in their order, and adds them.
    fn add_files<'a, D: Depot>(
        &mut self,
        alloc: Global,
        names: &[FileName<'a>],
        depot: &mut D,
    ) -> Result<(), BadFile<'a>>
        requires { self.old ≡ [] }
        ensures added { OnOk result (AreAdded (D.files depot.old) (WhichFailed D.Depot depot.old depot.new)
            names.now self.new) }
        ensures refused { IfErr result (λ e. e.fault ≢ FileFault.NoMemory → AreNotAdded (D.files depot.old)
            (WhichFailed D.Depot depot.old depot.new) names.now (record { name = e.name.now; fault = e.fault })) }
        ensures only_reads { OnlyReads D.Depot depot.old depot.new }
    {
        for file in names {
            let name = file.as_str();
            match self.add_file(alloc, depot, name) {
                Ok(()) => {}
                Err(fault) => return Err(BadFile { name, fault }),
            }
        }
        Ok(())
    }

    fn as_slice(&self) -> &[Job]
        ensures value { map fields_of_job result.now ≡ self.now }
        ensures counted { AreCounted (map fields_of_job result.now) }
    {
        self.jobs.as_slice()
    }
}

/// The file of the first job that has a CRL which isn't accepted, if there is one.
fn file_of_bad_crl<'a>(names: &[FileName<'a>], jobs: &[Job]) -> Option<BadFile<'a>>
    requires counted { AreCounted (map fields_of_job jobs.now) }
    requires many { length jobs.now ≡ length names.now }
    ensures { option_map (λ f. record { name = f.name.now; fault = f.fault }) result
        ≡ bad_crl_of names.now (map fields_of_job jobs.now) }
{
    for (place, job) in jobs.iter().enumerate() {
        if let Some(fault) = bad_crl(&job.crls) {
            let name = names[place].as_str();
            return Some(BadFile {
                name,
                fault: unadmitted(fault),
            });
        }
    }
    None
}

fn truth_of(listed: bool) -> Verdict
    ensures { result ≡ truth_by listed }
{
    if listed {
        Verdict::Revoked
    } else {
        Verdict::Good
    }
}

/// The file that an audit finds at fault: that of a job which isn't admitted, or that of the store.
fn file_at_fault<'a>(asked: &Audit<'a>, fault: AuditFault) -> BadFile<'a>
    requires { NamesOneOf (length asked.now.jobs) fault }
    ensures { record { name = result.name.now; fault = result.fault } ≡ of_audit asked.now fault }
{
    match fault {
        AuditFault::OldEpoch { job, held, given } => BadFile {
            name: asked.jobs.as_slice()[job as usize].as_str(),
            fault: FileFault::Chain(Refusal::OldEpoch { held, given }),
        },
        AuditFault::CoverageShrinks { job, log } => BadFile {
            name: asked.jobs.as_slice()[job as usize].as_str(),
            fault: FileFault::Chain(Refusal::CoverageShrinks { log }),
        },
        AuditFault::Disagrees {
            job,
            entry,
            held,
            truth,
        } => BadFile {
            name: asked.store.as_str(),
            fault: FileFault::Disagrees {
                job,
                entry,
                held,
                truth: truth_of(truth),
            },
        },
        AuditFault::NoMemory => BadFile {
            name: asked.store.as_str(),
            fault: FileFault::NoMemory,
        },
    }
}

/// The answer of `audit`, once its files are read.
fn audited<'a>(
    alloc: Global,
    asked: &Audit<'a>,
    store: &Store,
    jobs: &[Job],
) -> Result<Answer<'a>, NoMemory>
    requires counted { AreCounted (map fields_of_job jobs.now) }
    requires many { length jobs.now ≡ length asked.now.jobs }
    ensures { IfOk result (λ a. (o : Result Done NamedFault) × MakesAudit asked.now (Ok store.now)
        (unless (bad_crl_of asked.now.jobs (map fields_of_job jobs.now)) (map fields_of_job jobs.now)) o
        × (reply_fields a ≡ reply_of o)) }
{
    if let Some(file) = file_of_bad_crl(asked.jobs.as_slice(), jobs) {
        return refused(file.name, file.fault);
    }
    match audit(alloc, store.parts(), jobs) {
        Ok(found) => {
            let line = audited_line(jobs.len(), found.entries);
            Ok(Answer::Reply(Reply::done(line)))
        }
        Err(fault) => {
            let file = file_at_fault(asked, fault);
            refused(file.name, file.fault)
        }
    }
}

/// The answer of `audit`.
pub fn answer_audit<'a, D: Depot>(
    alloc: Global,
    asked: &Audit<'a>,
    depot: &mut D,
) -> Result<Answer<'a>, NoMemory>
    ensures reply { IfOk result (λ a. IsReply (Command.Audit asked.now) (D.files depot.old)
        (WhichFailed D.Depot depot.old depot.new) (reply_fields a)) }
    ensures only_reads { OnlyReads D.Depot depot.old depot.new }
{
    let store = match store_in(alloc, depot, asked.store.as_str()) {
        Ok(store) => store,
        Err(fault) => return refused(asked.store.as_str(), fault),
    };
    let mut jobs = AuditJobs::new(alloc, asked.jobs.as_slice().len())?;
    match jobs.add_files(alloc, asked.jobs.as_slice(), depot) {
        Ok(()) => audited(alloc, asked, &store, jobs.as_slice()),
        Err(file) => refused(file.name, file.fault),
    }
}
