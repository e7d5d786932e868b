//! What is published of a job.

ghost use Rattle.std.specs.Prelude.{◌≡◌, ◌≢◌, ◌≤◌, All, length, map, Err, IfOk, IfErr};
ghost use Rattle.std.specs.List.Sorted.{IsStrictlySortedBy};
ghost use Rattle.ident_core.specs.declared.bounds.TheConstants.{MAX_WORKERS};
ghost use Rattle.ident_core.specs.Order.{octets_cmp};
ghost use Rattle.job_core.specs.JobFields.{fields_of_job};
ghost use Rattle.job_core.specs.Fitting.{FitsPublishing, IsWithinLimits};
ghost use Rattle.equation_core.specs.Rows.{sha256_row};
ghost use Rattle.ledger_core.specs.LedgerFields.{sealed_with};
ghost use Rattle.universe_core.specs.Groups.{group_fields, IsGroup};
ghost use Rattle.universe_core.specs.Ledgers.{no_ledger};
ghost use Rattle.builder_core.specs.Building.{identities_in, issuers_of, IsBuildFault};
ghost use Rattle.publication_core.specs.Building.{IsSealedPart};
ghost use Rattle.publication_core.specs.Formats.{current, blocks_in};
ghost use Rattle.publication_core.specs.Publishing.{Publishes};

use crate::fault::PublishFault;
use crate::publication::Publication;
use builder_core::{BuildFault, Format, Gate, build_part_claimed};
use equation_core::Sha256Rows;
use ident_core::Head;
use job_core::{Job, Limits};
use ledger_core::{Draft, Ledger};
use part_codec::{Sealed, seal};
use std::alloc::Global;
use std::thread::Threads;
use universe_core::{Admitted, Group, admit_of, first_of};

/// Builds and seals a part of these groups, and the ledger with its trailer.
pub(crate) fn built<R: Threads + Sync, G: Gate + Sync>(
    rt: &R,
    alloc: Global,
    gate: &G,
    head: Head,
    groups: &[Group],
    next: Draft,
    workers: u32,
) -> Result<(Sealed, Ledger), BuildFault>
    requires facts { All IsGroup (map group_fields groups.now) }
    requires ascending { IsStrictlySortedBy octets_cmp (issuers_of (map group_fields groups.now)) }
    requires few { length groups.now ≤ Limits.PUBLISHED.crls }
    requires identities { identities_in (map group_fields groups.now) ≤ Limits.PUBLISHED.identities }
    requires some_workers { 1 ≤ workers }
    requires few_workers { workers ≤ MAX_WORKERS }
    ensures made { IfOk result (λ m. IsSealedPart current head (map group_fields groups.now) m.0
        × (m.1 ≡ sealed_with next m.0.trailer)) }
    ensures refused { IfErr result (λ e. IsBuildFault (blocks_in current) sha256_row (map group_fields groups.now) e) }
{
    let format = Format::Sharded;
    let part = build_part_claimed(rt, alloc, &Sha256Rows, gate, groups, head, workers, format)?;
    let sealed = seal(part);
    let ledger = next.seal(sealed.trailer());
    Ok((sealed, ledger))
}

/// Builds and seals the part of an admitted job.
fn published<R: Threads + Sync, G: Gate + Sync>(
    rt: &R,
    alloc: Global,
    gate: &G,
    place: u32,
    admitted: Admitted,
    workers: u32,
) -> Result<Publication, BuildFault>
    requires facts { All IsGroup (map group_fields admitted.groups.items) }
    requires ascending { IsStrictlySortedBy octets_cmp (issuers_of (map group_fields admitted.groups.items)) }
    requires few { length admitted.groups.items ≤ Limits.PUBLISHED.crls }
    requires identities { identities_in (map group_fields admitted.groups.items) ≤ Limits.PUBLISHED.identities }
    requires some_workers { 1 ≤ workers }
    requires few_workers { workers ≤ MAX_WORKERS }
    ensures made { IfOk result (λ p. IsSealedPart current admitted.head (map group_fields admitted.groups.items) p.sealed
        × (p.place ≡ place) × (p.ledger ≡ sealed_with admitted.next p.sealed.trailer) × (p.counts ≡ admitted.counts)) }
    ensures refused { IfErr result (λ e.
        IsBuildFault (blocks_in current) sha256_row (map group_fields admitted.groups.items) e) }
{
    let Admitted {
        head,
        groups,
        counts,
        next,
    } = admitted;
    let (sealed, ledger) = built(rt, alloc, gate, head, &groups, next, workers)?;
    Ok(Publication::new(place, sealed, ledger, counts))
}

/// What is published of a job as the first of a chain, by 1 to 64 workers, each of which enters the gate before it
/// builds a leaf of an issuer's block. The job's entries are let go once they are accepted, and the rest once it is
/// admitted.
pub fn publish_first<R: Threads + Sync, G: Gate + Sync>(
    rt: &R,
    alloc: Global,
    gate: &G,
    job: Job,
    workers: u32,
) -> Result<Publication, PublishFault>
    requires fits { FitsPublishing (fields_of_job job) }
    requires within { IsWithinLimits Limits.PUBLISHED (fields_of_job job) }
    requires some_workers { 1 ≤ workers }
    requires few_workers { workers ≤ MAX_WORKERS }
    ensures { result ≢ Err PublishFault.NoMemory → Publishes no_ledger (fields_of_job job) result }
{
    let admitted = first_of(rt, alloc, job, &Limits::PUBLISHED, workers)?;
    Ok(published(rt, alloc, gate, 0, admitted, workers)?)
}

/// What is published of a job behind a ledger, by 1 to 64 workers, each of which enters the gate before it builds a leaf
/// of an issuer's block. The job's entries are let go once they are accepted, and the ledger and the rest of the job once
/// it is admitted.
pub fn publish_after<R: Threads + Sync, G: Gate + Sync>(
    rt: &R,
    alloc: Global,
    gate: &G,
    ledger: Ledger,
    job: Job,
    workers: u32,
) -> Result<Publication, PublishFault>
    requires fits { FitsPublishing (fields_of_job job) }
    requires within { IsWithinLimits Limits.PUBLISHED (fields_of_job job) }
    requires some_workers { 1 ≤ workers }
    requires few_workers { workers ≤ MAX_WORKERS }
    ensures { result ≢ Err PublishFault.NoMemory → Publishes ledger (fields_of_job job) result }
{
    let place = ledger.parts().len() as u32;
    let admitted = admit_of(rt, alloc, &ledger, job, &Limits::PUBLISHED, workers)?;
    drop(ledger);
    Ok(published(rt, alloc, gate, place, admitted, workers)?)
}
