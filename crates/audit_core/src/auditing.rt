//! The audit of a store.

ghost use Rattle.std.specs.Prelude.{◌≡◌, ◌≤◌, ◌<◌, ◌+◌, ℕ, List, length, map, take, All, IfErr, IfOk, OnOk};
ghost use Rattle.ident_core.specs.declared.bounds.TheConstants.{MAX_IDENTITIES, MAX_PARTS};
ghost use Rattle.ident_core.specs.declared.identity.Identity.{Identity};
ghost use Rattle.ident_core.specs.declared.range.Sighting.{Sighting};
ghost use Rattle.card_core.specs.Verdict.{verdict};
ghost use Rattle.ident_core.specs.Among.{Among};
ghost use Rattle.universe_core.specs.History.{seen, sightings};
ghost use Rattle.universe_core.specs.Ledgers.{ledger_of};
ghost use Rattle.history_core.specs.Truth.{truth};
ghost use Rattle.audit_core.specs.Auditing.{IsAuditable, fields_of_jobs, entries_of, left_by_jobs, AreAdmitted, IsAccepted};
ghost use Rattle.audit_core.specs.Auditing.{Agrees, AllAgree, IsDisagreement, IsFound};
ghost use Rattle.audit_core.specs.Checking.{IsFirstIn};
ghost use Rattle.log_core.specs.declared.Entry.{Entry};

use crate::admitting::ledger_after_all;
use crate::checking::check_entries;
use crate::fault::AuditFault;
use job_core::Job;
use ledger_core::Ledger;
use part_codec::Sealed;
use std::alloc::Global;

/// What an audit says that says yes.
#[derive(Clone, Copy, Debug, PartialEq, Eq)]
pub struct Audited {
    /// How many entries the jobs accept.
    pub entries: u32,
}

/// How many entries the job at a place accepts, if the parts say the truth of each of them; else the first of which
/// they don't.
fn check_job(
    store: &[Sealed],
    ledger: &Ledger,
    jobs: &[Job],
    place: usize,
) -> Result<u32, AuditFault>
    requires few { length jobs.now ≤ MAX_PARTS }
    requires place { place < length jobs.now }
    requires entries { entries_of (fields_of_jobs jobs.now) ≤ MAX_IDENTITIES }
    requires admitted { AreAdmitted (fields_of_jobs jobs.now) (length jobs.now) }
    requires ledger { ledger.now ≡ ledger_of (left_by_jobs (fields_of_jobs jobs.now)) }
    ensures agree { OnOk result ((n : ℕ) (e : Entry) → IsAccepted (fields_of_jobs jobs.now) place n e
        → Agrees (map (λ s. s.part) store.now) (fields_of_jobs jobs.now) e) }
    ensures count { IfOk result (λ n. length (seen (left_by_jobs (take (place + 1) (fields_of_jobs jobs.now))))
        ≡ length (seen (left_by_jobs (take place (fields_of_jobs jobs.now)))) + n) }
    ensures few { IfOk result (λ n. entries_of (take place (fields_of_jobs jobs.now)) + n
        ≤ entries_of (take (place + 1) (fields_of_jobs jobs.now))) }
    ensures disagree { IfErr result (λ e. IsFirstIn (map (λ s. s.part) store.now) (fields_of_jobs jobs.now) place e) }
{
    let part = &ledger.parts()[place];
    check_entries(store, ledger, part, place as u32, &jobs[place].entries)
}

/// How many entries the jobs accept, if the parts say the truth of each of them; else the first of which they don't.
fn check_jobs(store: &[Sealed], ledger: &Ledger, jobs: &[Job]) -> Result<u32, AuditFault>
    requires few { length jobs.now ≤ MAX_PARTS }
    requires entries { entries_of (fields_of_jobs jobs.now) ≤ MAX_IDENTITIES }
    requires admitted { AreAdmitted (fields_of_jobs jobs.now) (length jobs.now) }
    requires ledger { ledger.now ≡ ledger_of (left_by_jobs (fields_of_jobs jobs.now)) }
    ensures agree { OnOk result (AllAgree (map (λ s. s.part) store.now) (fields_of_jobs jobs.now)) }
    ensures count { IfOk result (λ n. n ≡ length (seen (left_by_jobs (fields_of_jobs jobs.now)))) }
    ensures disagree { IfErr result (λ e. IsDisagreement (map (λ s. s.part) store.now) (fields_of_jobs jobs.now) e) }
{
    let mut accepted = 0;
    for place in 0..jobs.len() {
        match check_job(store, ledger, jobs, place) {
            Ok(count) => accepted += count,
            Err(fault) => return Err(fault),
        }
    }
    Ok(accepted)
}

/// What an audit says, once the jobs are admitted.
fn checked(store: &[Sealed], ledger: &Ledger, jobs: &[Job]) -> Result<Audited, AuditFault>
    requires few { length jobs.now ≤ MAX_PARTS }
    requires entries { entries_of (fields_of_jobs jobs.now) ≤ MAX_IDENTITIES }
    requires admitted { AreAdmitted (fields_of_jobs jobs.now) (length jobs.now) }
    requires ledger { ledger.now ≡ ledger_of (left_by_jobs (fields_of_jobs jobs.now)) }
    ensures { IsFound (map (λ s. s.part) store.now) (fields_of_jobs jobs.now) result }
{
    match check_jobs(store, ledger, jobs) {
        Ok(entries) => Ok(Audited { entries }),
        Err(fault) => Err(fault),
    }
}

/// Audits the parts of a store by jobs, which are admitted in order behind one another. It says yes exactly if, for
/// each entry that a job accepts, the parts say the truth when they are asked with its one sighting. At most as much
/// memory is taken as admission takes.
pub fn audit(alloc: Global, store: &[Sealed], jobs: &[Job]) -> Result<Audited, AuditFault>
    requires few { length jobs.now ≤ MAX_PARTS }
    requires jobs { All IsAuditable (fields_of_jobs jobs.now) }
    requires entries { entries_of (fields_of_jobs jobs.now) ≤ MAX_IDENTITIES }
    // Which job isn't admitted, on which entry the parts don't say the truth, or how many entries are accepted.
    ensures found { IsFound (map (λ s. s.part) store.now) (fields_of_jobs jobs.now) result }
    // Where it says yes, the parts say the truth of each certificate of the history, asked with any of its sightings.
    ensures truth { OnOk result ((x : Identity) (ss : List Sighting) → 1 ≤ length ss
        → ((s : Sighting) → Among ss s → Among (sightings x (seen (left_by_jobs (fields_of_jobs jobs.now)))) s)
        → verdict (map (λ s. s.part) store.now) x ss ≡ truth (left_by_jobs (fields_of_jobs jobs.now)) x) }
{
    match ledger_after_all(alloc, jobs) {
        Ok(Some(ledger)) => checked(store, &ledger, jobs),
        Ok(None) => Ok(Audited { entries: 0 }),
        Err(fault) => Err(fault),
    }
}
