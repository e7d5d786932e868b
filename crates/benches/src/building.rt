//! The part of a first job, built many times over.

ghost use Rattle.std.specs.Prelude.{◌≤◌, All, length, map};
ghost use Rattle.std.specs.List.Sorted.{IsStrictlySortedBy};
ghost use Rattle.ident_core.specs.declared.bounds.TheConstants.{MAX_IDENTITIES, MAX_ISSUERS, MAX_WORKERS};
ghost use Rattle.ident_core.specs.Order.{octets_cmp};
ghost use Rattle.universe_core.specs.Groups.{group_fields, IsGroup};
ghost use Rattle.builder_core.specs.Building.{identities_in, issuers_of};

use crate::job::{Sizes, job_of};
use builder_core::{BuildFault, Format, Open, build_part, build_part_claimed};
use card_core::Part;
use equation_core::Sha256Rows;
use ident_core::{Head, Kind, MAX_IDENTITIES, MAX_ISSUERS, MAX_RANGES, ranges_fit};
use job_core::{Job, Limits};
use octets_core::Key32;
use part_codec::seal;
use std::alloc::Global;
use std::io::{self, Print};
use std::test::Fail;
use std::thread::Threads;
use universe_core::{Admitted, Group, first};

// Whether workers draw the leaves from one counter or get shares of them, how blocks are cut, how many workers there
// are, and how often the part is built.
#[derive(Clone, Copy)]
struct Plan {
    claimed: bool,
    format: Format,
    workers: u32,
    rounds: u32,
}

fn head_of(alloc: Global) -> Head {
    Head::new(Kind::Snapshot, 1, Key32::new([0; 32]), Vec::new(alloc))
}

// The last of the parts.
fn built<R: Threads + Sync>(
    rt: &R,
    alloc: Global,
    groups: &[Group],
    plan: Plan,
) -> Result<Option<Part>, BuildFault>
    requires facts { All IsGroup (map group_fields groups.now) }
    requires ascending { IsStrictlySortedBy octets_cmp (issuers_of (map group_fields groups.now)) }
    requires few { length groups.now ≤ MAX_ISSUERS }
    requires identities { identities_in (map group_fields groups.now) ≤ MAX_IDENTITIES }
    requires some_workers { 1 ≤ plan.workers }
    requires few_workers { plan.workers ≤ MAX_WORKERS }
{
    let Plan {
        workers,
        format,
        ..
    } = plan;
    let mut last = None;
    for _ in 0..plan.rounds {
        let head = head_of(alloc);
        let part = if plan.claimed {
            build_part_claimed(rt, alloc, &Sha256Rows, &Open, groups, head, workers, format)?
        } else {
            build_part(rt, alloc, &Sha256Rows, &Open, groups, head, workers, format)?
        };
        last = Some(part);
    }
    Ok(last)
}

// The part of the job's groups, which was built so many times over.
fn last_part<R: Threads + Sync>(
    rt: &R,
    alloc: Global,
    job: &Job,
    plan: Plan,
) -> Result<Option<Part>, BuildFault>
    requires some_workers { 1 ≤ plan.workers }
    requires few_workers { plan.workers ≤ MAX_WORKERS }
{
    let few = job.crls.len() <= MAX_ISSUERS && job.entries.len() <= MAX_IDENTITIES;
    let fits = job.ranges.len() <= MAX_RANGES && ranges_fit(&job.ranges);
    if !(few && fits) {
        return Ok(None);
    }
    let Ok(Admitted { groups, .. }) = first(alloc, job, &Limits::PUBLISHED) else {
        return Ok(None);
    };
    if groups.len() > MAX_ISSUERS {
        return Ok(None);
    }
    built(rt, alloc, groups.as_slice(), plan)
}

// The first four bytes of the part's trailer as a number, where a part is built.
fn number<R: Threads + Sync>(rt: &R, alloc: Global, plan: Plan, sizes: Sizes) -> Option<u32>
    requires some_workers { 1 ≤ plan.workers }
    requires few_workers { plan.workers ≤ MAX_WORKERS }
{
    let job = job_of(alloc, sizes).ok()?;
    let part = last_part(rt, alloc, &job, plan).ok()??;
    let trailer = seal(part).trailer();
    let bytes = trailer.bytes();
    Some(u32::from_be_bytes([bytes[0], bytes[1], bytes[2], bytes[3]]))
}

/// Builds the part of one issuer with LARGE certificates and of MANY with SMALL, by WORKERS, ROUNDS times over, and
/// prints the first four bytes of its trailer as a number. The numbers are WORKERS, ROUNDS, LARGE, MANY and SMALL.
pub(crate) fn run<R: Threads + Sync + Print>(
    rt: &R,
    alloc: Global,
    claimed: bool,
    sharded: bool,
    numbers: [u32; 5],
) -> io::Result<()> {
    let [workers, rounds, large, many, small] = numbers;
    let plan = Plan {
        claimed,
        format: if sharded {
            Format::Sharded
        } else {
            Format::Plain
        },
        workers: workers.clamp(1, 64),
        rounds,
    };
    match number(rt, alloc, plan, Sizes { large, many, small }) {
        Some(number) => println!(rt; "{number}"),
        None => println!(rt; "no part"),
    }
}

// The number is that of tools/reference.py.
#[test]
fn part_of_a_small_job(rt: HostRuntime) -> Result<(), Fail> {
    let plan = Plan {
        claimed: true,
        format: Format::Sharded,
        workers: 2,
        rounds: 1,
    };
    let sizes = Sizes {
        large: 300,
        many: 2,
        small: 60,
    };
    assert_eq!(rt; number(&rt, rt.alloc(), plan, sizes), Some(2_242_486_873));
    Ok(())
}
