//! The step from a ledger to the next.

ghost use Rattle.std.specs.Prelude.{◌≡◌, ◌≤◌, ◌<◌, length, map, IfOk, IfErr, OnOk, All};
ghost use Rattle.std.specs.List.Sorted.{IsStrictlySortedBy};
ghost use Rattle.ident_core.specs.Order.{identity_cmp, octets_cmp};
ghost use Rattle.ident_core.specs.Coverage.{RangesFit};
ghost use Rattle.job_core.specs.JobFields.{AreWithin, fields_of_job};
ghost use Rattle.ident_core.specs.declared.bounds.TheConstants.{MAX_PARTS};
ghost use Rattle.ledger_core.specs.LedgerFields.{LedgerFields, ids, ledger_fields};
ghost use Rattle.universe_core.specs.Jobs.{JobFacts, facts_of_job, enrolled as enrolled_of};
ghost use Rattle.universe_core.specs.HeldJobs.{job_held};
ghost use Rattle.universe_core.specs.History.{accepted_with, universe, revoked};
ghost use Rattle.universe_core.specs.Counting.{count};
ghost use Rattle.universe_core.specs.Groups.{group_fields};
ghost use Rattle.universe_core.specs.Ledgers.{no_ledger, past_in, past_by, next_item};
ghost use Rattle.universe_core.specs.Members.{AreMembers, AreOf, members_in};
ghost use Rattle.universe_core.specs.Following.{IsBefore};
ghost use Rattle.universe_core.specs.Judging.{IsSearchable};
ghost use Rattle.universe_core.specs.Step.{IsAdmission, KeepsLimits, groups_after};
ghost use Rattle.universe_core.specs.declared.class.Class.TheVariants as class;

use crate::admitted::{Admitted, Group};
use crate::counting::set_flags;
use crate::counts::Counts;
use crate::enrolling::enrolled;
use crate::fault::AdmitFault;
use crate::flagging::{revoked_now, set_lasts};
use crate::following::{check_early, next_draft, next_head};
use crate::held::HeldJob;
use crate::judging::Context;
use crate::member::Members;
use crate::merging::members;
use crate::reading::{Tally, read};
use crate::threading::{ByWorkers, CallersThread, Threading};
use job_core::{Job, JobCrl, Limits, What};
use ledger_core::{Ledger, LedgerItem, LedgerPart};
use octets_core::Key32;
use std::alloc::{AllocError, Global};
use std::thread::Threads;

/// What is accepted: the enrolled issuers, the identities, and how many entries there are of each class. The rest of
/// the job is beside it.
#[derive(Drop)]
struct Acceptance<'a> {
    rest: HeldJob<'a>,
    issuers: Vec<Key32>,
    members: Members,
    tally: Tally,
    late: u32,
    accepted: u32,
}

/// What accepted identities make: the groups, the items of the next ledger, and how many are of the universe and
/// revoked.
#[derive(Drop)]
struct Made {
    groups: Vec<Group>,
    items: Vec<LedgerItem>,
    universe: u32,
    revoked: u32,
}

/// Accepts a job's entries, beside a ledger. They are let go once they are read.
fn accept<'a, T: Threading>(
    threading: &T,
    alloc: Global,
    parts: &[LedgerPart],
    items: &[LedgerItem],
    job: HeldJob<'a>,
) -> Result<Acceptance<'a>, AllocError>
    requires shared { T.shared threading.now }
    requires few_parts { length parts.now < 256 }
    requires parts { All IsSearchable parts.now }
    requires ranges { RangesFit (job_held job).ranges.items }
    requires few_crls { length (job_held job).crls.items ≤ 65535 }
    requires ascend { IsStrictlySortedBy identity_cmp (map (λ i. i.id) items.now) }
    requires few_entries { length (job_held job).entries.items ≤ 4294967295 }
    ensures epoch { IfOk result (λ a. (job_held a.rest).epoch ≡ (job_held job.entry).epoch) }
    ensures ranges { IfOk result (λ a. (job_held a.rest).ranges.items ≡ (job_held job.entry).ranges.items) }
    ensures crls { IfOk result (λ a. (job_held a.rest).crls.items ≡ (job_held job.entry).crls.items) }
    ensures issuers { IfOk result (λ a. a.issuers.items ≡ enrolled_of (facts_of_job (job_held job.entry))) }
    ensures members { IfOk result (λ a.
        AreMembers (members_in (ledger_fields parts.now items.now)
        (facts_of_job (job_held job.entry))) a.members.items.items a.members.settled.items) }
    ensures unread { IfOk result (λ a.
        a.tally.unread ≡ count class.Unread (past_by parts.now items.now) (facts_of_job (job_held job.entry))) }
    ensures uncovered { IfOk result (λ a.
        a.tally.uncovered ≡ count class.Uncovered (past_by parts.now items.now) (facts_of_job (job_held job.entry))) }
    ensures unenrolled { IfOk result (λ a.
        a.tally.unenrolled ≡ count class.Unenrolled (past_by parts.now items.now) (facts_of_job (job_held job.entry))) }
    ensures late { IfOk result (λ a. a.late ≡ count class.Late (past_by parts.now items.now) (facts_of_job (job_held job.entry))) }
    ensures accepted { IfOk result (λ a.
        a.accepted ≡ count class.Accepted (past_by parts.now items.now) (facts_of_job (job_held job.entry))) }
{
    let whole = job.job();
    let issuers = enrolled(alloc, whole)?;
    let reading = read(alloc, &whole.ranges, &issuers, &whole.entries)?;
    let tally = reading.tally;
    let rest = job.without_entries(alloc);
    let left = rest.job();
    let context = Context {
        parts,
        issuers: &issuers,
        ranges: &left.ranges,
    };
    let merged = members(threading, alloc, &context, items, reading.entries)?;
    let late = merged.late as u32;
    Ok(Acceptance {
        rest,
        issuers,
        members: merged.members,
        tally,
        late,
        accepted: tally.read - late,
    })
}

/// Makes the next items and the groups of accepted identities, for a part at this place, by the job's CRLs.
fn build<T: Threading>(
    threading: &T,
    alloc: Global,
    crls: &[JobCrl],
    issuers: &[Key32],
    members: Members,
    place: u8,
) -> Result<Made, AllocError>
    requires shared { T.shared threading.now }
    requires issuers { IsStrictlySortedBy octets_cmp issuers.now }
    requires ascend { IsStrictlySortedBy identity_cmp (ids members.items.items) }
    requires beside { length members.settled.items ≡ length members.items.items }
    requires few { length members.items.items ≤ 4294967295 }
    ensures groups { (ledger : LedgerFields) (job : JobFacts)
        → AreOf ledger job crls.now issuers.now members.items.items members.settled.items
        → IfOk result (λ b. map group_fields b.groups.items ≡ groups_after ledger job) }
    ensures items { (ledger : LedgerFields) (job : JobFacts)
        → AreOf ledger job crls.now issuers.now members.items.items members.settled.items
        → place ≡ length ledger.parts
        → IfOk result (λ b. b.items.items ≡ map (next_item (past_in ledger) ledger job) (accepted_with (past_in ledger) job)) }
    ensures universe { (ledger : LedgerFields) (job : JobFacts)
        → AreOf ledger job crls.now issuers.now members.items.items members.settled.items
        → IfOk result (λ b. b.universe ≡ length (universe (past_in ledger) job)) }
    ensures revoked { (ledger : LedgerFields) (job : JobFacts)
        → AreOf ledger job crls.now issuers.now members.items.items members.settled.items
        → IfOk result (λ b. b.revoked ≡ length (revoked (past_in ledger) job)) }
{
    let flags = revoked_now(
        threading,
        alloc,
        crls,
        issuers,
        &members.items,
        &members.settled,
    )?;
    drop(members.settled);
    let mut items = members.items;
    set_lasts(&mut items, &flags.revoked, place);
    let groups = threading.groups(alloc, issuers, &items, &flags.revoked)?;
    let revoked = set_flags(&flags.revoked);
    Ok(Made {
        groups,
        items,
        universe: flags.universe,
        revoked,
    })
}

/// Refuses more identities than the limit. No memory is taken.
fn check_identities(identities: usize, limits: &Limits) -> Result<(), AdmitFault>
    ensures few { OnOk result (identities ≤ limits.now.identities) }
    ensures many { IfErr result (λ e. (e ≡ AdmitFault.TooMany What.Identities limits.now.identities)
        × (limits.now.identities < identities)) }
{
    if identities > limits.identities as usize {
        return Err(AdmitFault::TooMany {
            what: What::Identities,
            limit: limits.identities,
        });
    }
    Ok(())
}

/// Admits a job behind these parts and items, of which a chain's first job has none.
fn step<T: Threading>(
    threading: &T,
    alloc: Global,
    parts: &[LedgerPart],
    items: &[LedgerItem],
    job: HeldJob<'_>,
    limits: &Limits,
) -> Result<Admitted, AdmitFault>
    requires shared { T.shared threading.now }
    requires published { AreWithin limits.now Limits.PUBLISHED }
    requires ranges { RangesFit (job_held job).ranges.items }
    requires few { KeepsLimits limits.now (fields_of_job (job_held job)) }
    requires few_parts { length parts.now ≤ MAX_PARTS }
    requires before { IsBefore (ledger_fields parts.now items.now) }
    ensures { IsAdmission limits.now (ledger_fields parts.now items.now) (job_held job.entry) result }
{
    check_early(parts, job.job())?;
    let accepted = accept(threading, alloc, parts, items, job)?;
    check_identities(accepted.members.items.len(), limits)?;
    let tally = accepted.tally;
    let late = accepted.late;
    let timely = accepted.accepted;
    let members = accepted.members;
    let issuers = accepted.issuers;
    let held = accepted.rest;
    let rest = held.job();
    let place = parts.len() as u8;
    let built = build(threading, alloc, &rest.crls, &issuers, members, place)?;
    let counts = Counts {
        issuers: issuers.len() as u32,
        universe: built.universe,
        revoked: built.revoked,
        unread: tally.unread,
        uncovered: tally.uncovered,
        unenrolled: tally.unenrolled,
        late,
        accepted: timely,
    };
    let head = next_head(alloc, parts, rest)?;
    let next = next_draft(alloc, parts, rest, issuers, built.items)?;
    Ok(Admitted {
        head,
        groups: built.groups,
        counts,
        next,
    })
}

/// Admits a job as the first of a chain. Its ranges fit, and its numbers of ranges, CRLs and entries keep the limits.
/// The answer is never `OldEpoch`, `CoverageShrinks` or `ChainFull`.
pub fn first(alloc: Global, job: &Job, limits: &Limits) -> Result<Admitted, AdmitFault>
    requires published { AreWithin limits.now Limits.PUBLISHED }
    requires ranges { RangesFit job.now.ranges.items }
    requires few { KeepsLimits limits.now (fields_of_job job.now) }
    ensures { IsAdmission limits.now no_ledger job.now result }
{
    step(&CallersThread, alloc, &[], &[], HeldJob::Lent(job), limits)
}

/// Admits a job behind a ledger. Its ranges fit, and its numbers of ranges, CRLs and entries keep the limits. The
/// ledger stays as it is.
pub fn admit(
    alloc: Global,
    ledger: &Ledger,
    job: &Job,
    limits: &Limits,
) -> Result<Admitted, AdmitFault>
    requires published { AreWithin limits.now Limits.PUBLISHED }
    requires ranges { RangesFit job.now.ranges.items }
    requires few { KeepsLimits limits.now (fields_of_job job.now) }
    ensures { IsAdmission limits.now ledger.now job.now result }
{
    step(
        &CallersThread,
        alloc,
        ledger.parts(),
        ledger.items(),
        HeldJob::Lent(job),
        limits,
    )
}

/// As `first`, of a job that is given: its entries are let go once they are read. Where there are more workers than one,
/// as many threads as there are processors sort them, tell which identities are revoked, and make the groups. Few
/// identities are told by fewer threads.
pub fn first_of<R: Threads + Sync>(
    rt: &R,
    alloc: Global,
    job: Job,
    limits: &Limits,
    workers: u32,
) -> Result<Admitted, AdmitFault>
    requires published { AreWithin limits.now Limits.PUBLISHED }
    requires ranges { RangesFit job.ranges.items }
    requires few { KeepsLimits limits.now (fields_of_job job) }
    ensures { IsAdmission limits.now no_ledger job result }
{
    step(
        &ByWorkers { rt, workers },
        alloc,
        &[],
        &[],
        HeldJob::Given(job),
        limits,
    )
}

/// As `admit`, of a job that is given: its entries are let go once they are read. Where there are more workers than one,
/// as many threads as there are processors sort them, tell which identities are revoked, and make the groups. Few
/// identities are told by fewer threads.
pub fn admit_of<R: Threads + Sync>(
    rt: &R,
    alloc: Global,
    ledger: &Ledger,
    job: Job,
    limits: &Limits,
    workers: u32,
) -> Result<Admitted, AdmitFault>
    requires published { AreWithin limits.now Limits.PUBLISHED }
    requires ranges { RangesFit job.ranges.items }
    requires few { KeepsLimits limits.now (fields_of_job job) }
    ensures { IsAdmission limits.now ledger.now job result }
{
    step(
        &ByWorkers { rt, workers },
        alloc,
        ledger.parts(),
        ledger.items(),
        HeldJob::Given(job),
        limits,
    )
}
