//! Admission of jobs in order.

ghost use Rattle.std.specs.Prelude.{◌≡◌, ◌≢◌, ◌≤◌, length, map, All, None, Some, IfOk, IfErr, OnOk};
ghost use Rattle.ident_core.specs.Coverage.{RangesFit};
ghost use Rattle.ident_core.specs.HeadFields.{zero_key};
ghost use Rattle.ident_core.specs.declared.bounds.TheConstants.{MAX_IDENTITIES, MAX_PARTS};
ghost use Rattle.job_core.specs.JobFields.{fields_of_job};
ghost use Rattle.universe_core.specs.Jobs.{facts_of_job};
ghost use Rattle.universe_core.specs.Ledgers.{ledger_or_none, ledger_of, next_ledger};
ghost use Rattle.universe_core.specs.Step.{KeepsLimits, refusal};
ghost use Rattle.audit_core.specs.Admitting.{IsCause, as_audit_fault, IsRefusal};
ghost use Rattle.audit_core.specs.Auditing.{IsAuditable, fields_of_jobs, entries_of, left_by_jobs, AreAdmitted};

use crate::fault::AuditFault;
use job_core::{Job, Limits};
use ledger_core::Ledger;
use octets_core::Key32;
use std::alloc::Global;
use universe_core::{AdmitFault, admit, first};

/// The ledger after a job, behind this one. No part of the job is known: its trailer is zeros.
fn ledger_after(alloc: Global, ledger: &Option<Ledger>, job: &Job) -> Result<Ledger, AdmitFault>
    requires ranges { RangesFit job.now.ranges.items }
    requires few { KeepsLimits Limits.PUBLISHED (fields_of_job job.now) }
    ensures admitted { OnOk result (refusal Limits.PUBLISHED (ledger_or_none ledger.now) (fields_of_job job.now) ≡ None) }
    ensures refused { IfErr result (λ e. e ≢ AdmitFault.NoMemory
        → refusal Limits.PUBLISHED (ledger_or_none ledger.now) (fields_of_job job.now) ≡ Some e) }
    ensures next { IfOk result (λ l. l ≡ next_ledger (ledger_or_none ledger.now) (facts_of_job job.now) zero_key) }
{
    let admitted = match ledger {
        None => first(alloc, job, &Limits::PUBLISHED)?,
        Some(ledger) => admit(alloc, ledger, job, &Limits::PUBLISHED)?,
    };
    Ok(admitted.next.seal(Key32::new([0; 32])))
}

/// The fault of the job at this place.
fn fault_at(job: u32, fault: AdmitFault) -> AuditFault
    requires { IsCause fault }
    ensures { result ≡ as_audit_fault job fault }
{
    match fault {
        AdmitFault::OldEpoch { held, given } => AuditFault::OldEpoch { job, held, given },
        AdmitFault::CoverageShrinks { log } => AuditFault::CoverageShrinks { job, log },
        AdmitFault::NoMemory => AuditFault::NoMemory,
        AdmitFault::BadCrl { .. } | AdmitFault::ChainFull | AdmitFault::TooMany { .. } => {
            unreachable!()
        }
    }
}

/// The ledger after the jobs, which are admitted in order; none is that of no job.
pub(crate) fn ledger_after_all(alloc: Global, jobs: &[Job]) -> Result<Option<Ledger>, AuditFault>
    requires few { length jobs.now ≤ MAX_PARTS }
    requires jobs { All IsAuditable (fields_of_jobs jobs.now) }
    requires entries { entries_of (fields_of_jobs jobs.now) ≤ MAX_IDENTITIES }
    ensures admitted { OnOk result (AreAdmitted (fields_of_jobs jobs.now) (length jobs.now)) }
    ensures ledger { IfOk result (λ l. ledger_or_none l ≡ ledger_of (left_by_jobs (fields_of_jobs jobs.now))) }
    ensures refused { IfErr result (λ e. IsRefusal (fields_of_jobs jobs.now) e) }
{
    let mut ledger = None;
    let mut place = 0;
    for job in jobs {
        match ledger_after(alloc, &ledger, job) {
            Ok(next) => ledger = Some(next),
            Err(fault) => return Err(fault_at(place, fault)),
        }
        place += 1;
    }
    Ok(ledger)
}
