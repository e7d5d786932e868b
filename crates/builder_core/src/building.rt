ghost use Rattle.std.specs.Prelude.{◌≤◌, All, length, map};
ghost use Rattle.std.specs.List.Sorted.{IsStrictlySortedBy};
ghost use Rattle.ident_core.specs.declared.bounds.TheConstants.{MAX_IDENTITIES, MAX_ISSUERS, MAX_WORKERS};
ghost use Rattle.ident_core.specs.Order.{octets_cmp};
ghost use Rattle.universe_core.specs.Groups.{group_fields, IsGroup};
ghost use Rattle.builder_core.specs.Building.{BuildsPart, identities_in, issuers_of};

use crate::assembling::assemble;
use crate::cuts::cuts_of;
use crate::outcomes::{Sharing, outcomes_of};
use crate::tasks::tasks_of;
use crate::{BuildFault, Format, Gate};
use card_core::Part;
use equation_core::EquationHash;
use ident_core::Head;
use std::alloc::Global;
use std::thread::Threads;
use universe_core::Group;

// The part of this head with the block of each group, of what comes of each leaf.
fn build<R: Threads + Sync, H: EquationHash + Sync, G: Gate + Sync>(
    rt: &R,
    alloc: Global,
    hash: &H,
    gate: &G,
    groups: &[Group],
    head: Head,
    workers: u32,
    format: Format,
    sharing: Sharing,
) -> Result<Part, BuildFault>
    requires facts { All IsGroup (map group_fields groups.now) }
    requires ascending { IsStrictlySortedBy octets_cmp (issuers_of (map group_fields groups.now)) }
    requires few { length groups.now ≤ MAX_ISSUERS }
    requires identities { identities_in (map group_fields groups.now) ≤ MAX_IDENTITIES }
    requires some_workers { 1 ≤ workers }
    requires few_workers { workers ≤ MAX_WORKERS }
    ensures { BuildsPart format (H.row_of hash.now) head (map group_fields groups.now) result }
{
    let cuts = cuts_of(rt, alloc, groups, workers > 1, format)?;
    let tasks = tasks_of(alloc, &cuts)?;
    let outcomes = outcomes_of(rt, alloc, hash, gate, &tasks, workers, sharing)?;
    let blocks = assemble(alloc, groups.len(), outcomes)?;
    Ok(Part::new(head, blocks))
}

/// The part of this head with the block of each group in this format, or the first refusal. The leaves of the blocks
/// are built side by side, by as many threads as there are workers, or leaves where these are fewer. Each thread builds
/// neighbouring leaves in order, and enters the gate before each. One worker builds all on the caller's thread; where
/// there are several, the shards of a large group are drawn by twice as many threads as there are processors, and the
/// rows of a large one that isn't cut are made by as many as there are processors.
pub fn build_part<R: Threads + Sync, H: EquationHash + Sync, G: Gate + Sync>(
    rt: &R,
    alloc: Global,
    hash: &H,
    gate: &G,
    groups: &[Group],
    head: Head,
    workers: u32,
    format: Format,
) -> Result<Part, BuildFault>
    requires facts { All IsGroup (map group_fields groups.now) }
    requires ascending { IsStrictlySortedBy octets_cmp (issuers_of (map group_fields groups.now)) }
    requires few { length groups.now ≤ MAX_ISSUERS }
    requires identities { identities_in (map group_fields groups.now) ≤ MAX_IDENTITIES }
    requires some_workers { 1 ≤ workers }
    requires few_workers { workers ≤ MAX_WORKERS }
    ensures { BuildsPart format (H.row_of hash.now) head (map group_fields groups.now) result }
{
    let sharing = Sharing::Cut;
    build(
        rt, alloc, hash, gate, groups, head, workers, format, sharing,
    )
}

/// The part of this head with the block of each group in this format, or the first refusal, as `build_part` gives it.
/// The workers, or as many as there are leaves where these are fewer, draw the leaves of the blocks from one counter,
/// in order, so that a leaf that takes long holds up no other. Each thread enters the gate before each leaf that it
/// builds. One worker builds all on the caller's thread; where there are several, the shards of a large group are drawn
/// by twice as many threads as there are processors, and the rows of a large one that isn't cut are made by as many as
/// there are processors.
pub fn build_part_claimed<R: Threads + Sync, H: EquationHash + Sync, G: Gate + Sync>(
    rt: &R,
    alloc: Global,
    hash: &H,
    gate: &G,
    groups: &[Group],
    head: Head,
    workers: u32,
    format: Format,
) -> Result<Part, BuildFault>
    requires facts { All IsGroup (map group_fields groups.now) }
    requires ascending { IsStrictlySortedBy octets_cmp (issuers_of (map group_fields groups.now)) }
    requires few { length groups.now ≤ MAX_ISSUERS }
    requires identities { identities_in (map group_fields groups.now) ≤ MAX_IDENTITIES }
    requires some_workers { 1 ≤ workers }
    requires few_workers { workers ≤ MAX_WORKERS }
    ensures { BuildsPart format (H.row_of hash.now) head (map group_fields groups.now) result }
{
    let sharing = Sharing::Claimed;
    build(
        rt, alloc, hash, gate, groups, head, workers, format, sharing,
    )
}
