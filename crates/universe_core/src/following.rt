//! What a job must be to follow the parts of a chain, and what follows them.

ghost use Rattle.std.specs.Prelude.{◌≡◌, ◌≤◌, length, map, IfErr, IfOk, None, OnOk, Some};
ghost use Rattle.ident_core.specs.Coverage.{RangesFit};
ghost use Rattle.job_core.specs.declared.bounds.TheConstants.Limits.{PUBLISHED};
ghost use Rattle.job_core.specs.JobFields.{fields_of_job, crl_view};
ghost use Rattle.ledger_core.specs.LedgerFields.{IsLedger, part_fields, newest};
ghost use Rattle.universe_core.specs.Jobs.{facts_of_job};
ghost use Rattle.universe_core.specs.Members.{unsealed};
ghost use Rattle.universe_core.specs.Step.{bad_crl_from, old_epoch, shrunk, chain_full, head_after};
ghost use Rattle.universe_core.specs.Following.{early};

use crate::fault::AdmitFault;
use ident_core::{Head, Kind, MAX_PARTS, Range, shrinks};
use job_core::{Job, JobCrl};
use ledger_core::{Draft, LedgerItem, LedgerPart};
use octets_core::Key32;
use std::alloc::{AllocError, Global};

/// What refuses a job of these CRLs for the first one that isn't accepted, if there is one.
pub fn bad_crl(crls: &[JobCrl]) -> Option<AdmitFault>
    requires { length crls.now ≤ PUBLISHED.crls }
    ensures { result ≡ bad_crl_from 0 (map crl_view crls.now) }
{
    let mut place = 0;
    for crl in crls {
        if let Err(fault) = &crl.outcome {
            return Some(AdmitFault::BadCrl {
                place,
                fault: *fault,
            });
        }
        place += 1;
    }
    None
}

/// Whether the epoch isn't above the newest part's.
fn old_epoch_in(parts: &[LedgerPart], epoch: u64) -> Option<AdmitFault>
    ensures { result ≡ old_epoch (newest (map part_fields parts.now)) epoch }
{
    match parts.last() {
        Some(part) => {
            if epoch <= part.epoch {
                return Some(AdmitFault::OldEpoch {
                    held: part.epoch,
                    given: epoch,
                });
            }
            None
        }
        None => None,
    }
}

/// Whether a range of the newest part lies in none of the job's.
fn shrunk_in(parts: &[LedgerPart], job: &Job) -> Option<AdmitFault>
    ensures { result ≡ shrunk (newest (map part_fields parts.now)) (facts_of_job job.now) }
{
    match parts.last() {
        Some(part) => match shrinks(&part.ranges, &job.ranges) {
            Some(log) => Some(AdmitFault::CoverageShrinks { log }),
            None => None,
        },
        None => None,
    }
}

fn full_chain(parts: &[LedgerPart]) -> Option<AdmitFault>
    ensures { result ≡ chain_full (map part_fields parts.now) }
{
    if MAX_PARTS <= parts.len() {
        return Some(AdmitFault::ChainFull);
    }
    None
}

/// Refuses a job that can't follow these parts, but for the number of its identities. No memory is taken.
pub(crate) fn check_early(parts: &[LedgerPart], job: &Job) -> Result<(), AdmitFault>
    requires { length job.now.crls.items ≤ PUBLISHED.crls }
    ensures follows { OnOk result (early (map part_fields parts.now) (fields_of_job job.now) ≡ None) }
    ensures refused { IfErr result (λ e. early (map part_fields parts.now) (fields_of_job job.now) ≡ Some e) }
{
    let bad = bad_crl(&job.crls);
    let old = old_epoch_in(parts, job.epoch);
    let shrunk = shrunk_in(parts, job);
    let full = full_chain(parts);
    match bad.or(old.or(shrunk.or(full))) {
        None => Ok(()),
        Some(fault) => Err(fault),
    }
}

/// The ranges, in memory of their own.
pub fn copied_ranges(alloc: Global, ranges: &[Range]) -> Result<Vec<Range>, AllocError>
    ensures { IfOk result (λ out. out.items ≡ ranges.now) }
{
    ranges.iter().copied().collect(alloc)
}

/// The head of the part that follows these.
pub(crate) fn next_head(alloc: Global, parts: &[LedgerPart], job: &Job) -> Result<Head, AllocError>
    requires { RangesFit job.now.ranges.items }
    ensures { IfOk result (λ h. h ≡ head_after (map part_fields parts.now) (facts_of_job job.now)) }
{
    let ranges = copied_ranges(alloc, &job.ranges)?;
    match parts.last() {
        Some(part) => Ok(Head::new(Kind::Delta, job.epoch, part.trailer, ranges)),
        None => Ok(Head::new(Kind::Snapshot, job.epoch, Key32::new([0; 32]), ranges)),
    }
}

fn copied_part(alloc: Global, part: &LedgerPart) -> Result<LedgerPart, AllocError>
    ensures { IfOk result (λ p. part_fields p ≡ part_fields part.now) }
{
    let ranges = copied_ranges(alloc, &part.ranges)?;
    let issuers = part.issuers.iter().copied().collect::<Vec<Key32>>(alloc)?;
    Ok(LedgerPart {
        epoch: part.epoch,
        trailer: part.trailer,
        ranges,
        issuers,
    })
}

/// The parts, in memory of their own with room for one more.
fn copied_parts(alloc: Global, parts: &[LedgerPart]) -> Result<Vec<LedgerPart>, AllocError>
    ensures { IfOk result (λ out. map part_fields out.items ≡ map part_fields parts.now) }
{
    let mut out = Vec::with_capacity(alloc, parts.len().saturating_add(1))?;
    for part in parts {
        let one = copied_part(alloc, part)?;
        out.push(one)?;
    }
    Ok(out)
}

/// The next ledger, but for its newest part's trailer.
pub(crate) fn next_draft(
    alloc: Global,
    parts: &[LedgerPart],
    job: &Job,
    issuers: Vec<Key32>,
    items: Vec<LedgerItem>,
) -> Result<Draft, AllocError>
    requires { IsLedger (unsealed parts.now (facts_of_job job.now) issuers.items items.items) }
    ensures { IfOk result (λ d. d ≡ unsealed parts.now (facts_of_job job.now) issuers.items items.items) }
{
    let ranges = copied_ranges(alloc, &job.ranges)?;
    let mut all = copied_parts(alloc, parts)?;
    all.push(LedgerPart {
        epoch: job.epoch,
        trailer: Key32::new([0; 32]),
        ranges,
        issuers,
    })?;
    let draft = Draft::new(all, items);
    Ok(draft)
}
