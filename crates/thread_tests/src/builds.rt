//! Building a part: refusals, what enters the gate, and what is built side by side.

ghost use Rattle.std.specs.Prelude.{◌≡◌, ◌<◌, ◌≤◌};

use crate::gates::{Holds, MANY};
use builder_core::{BuildFault, Format, Gate, Open, build_part, build_part_claimed};
use card_core::Part;
use crl_core::Crl;
use equation_core::{EquationHash, Row, Sha256Rows, shard_of};
use ident_core::{Identity, Range, Serial, Sighting, ranges_fit};
use job_core::{Job, JobCrl, Limits};
use log_core::Entry;
use octets_core::Key32;
use std::alloc::Global;
use std::sync::atomic::Ordering::SeqCst;
use std::sync::atomic::{AtomicBool, AtomicU32};
use std::test::Fail;
use std::thread::Threads;
use universe_core::{Admitted, first};

/// Rows by which no exact stage can be solved: each chooses the first column alone, so that the equations are the same
/// but for their targets.
pub struct RowsAlike;

impl EquationHash for RowsAlike {
    ghost use Rattle.thread_tests.specs.TestRows.{row_alike, row_alike-is};

    ghost row_of = { λ _ stage seed id starts. row_alike stage seed id starts };

    ghost formed = { λ _ stage seed id starts _ _ some _. row_alike-is stage seed id starts some };

    fn row(&self, _stage: u8, _seed: u8, _id: &Identity, _starts: u32) -> Row {
        Row {
            start: 0,
            coeff: 1,
            tag: 0,
        }
    }
}

// How the leaves are shared among workers: cut into shares before the work, or drawn from one counter.
#[derive(Clone, Copy, Debug)]
enum Sharing {
    Cut,
    Claimed,
}

const BOTH: [Sharing; 2] = [Sharing::Cut, Sharing::Claimed];

const LOG: [u8; 32] = [0xaa; 32];

/// A certificate of the issuer whose key is made of this byte.
pub fn identity(issuer: u8, serial: &[u8]) -> Result<Identity, Fail> {
    let issuer = Key32::new([issuer; 32]);
    let serial = Serial::new(serial)?;
    Ok(Identity { issuer, serial })
}

// Each fiftieth serial below `count`, or none.
fn serials_of(alloc: Global, count: u16, revokes: bool) -> Result<Vec<Serial>, Fail> {
    let mut serials = Vec::new(alloc);
    for number in 0..count {
        if revokes && number % 50 == 0 {
            serials.push(Serial::new(&number.to_be_bytes())?)?;
        }
    }
    Ok(serials)
}

// Enters an issuer with a certificate for each serial below `count`, of which each fiftieth is revoked, or none.
fn enroll(alloc: Global, job: &mut Job, issuer: u8, count: u16, revokes: bool) -> Result<(), Fail> {
    let log = Key32::new(LOG);
    for number in 0..count {
        job.entries.push(Some(Entry {
            id: identity(issuer, &number.to_be_bytes())?,
            sighting: Sighting { log, time: 0 },
            until: None,
        }))?;
    }
    let crl = Crl {
        this_update: 0,
        next_update: None,
        serials: serials_of(alloc, count, revokes)?,
    };
    job.crls.push(JobCrl {
        issuer: Key32::new([issuer; 32]),
        outcome: Ok(crl),
    })?;
    Ok(())
}

// A job of issuers, each with the byte of its key, how many certificates it has, and whether each fiftieth of them is
// revoked. From 32,768 certificates on an issuer is cut into two shards.
fn job_of(alloc: Global, issuers: &[(u8, u16, bool)]) -> Result<Job, Fail> {
    let log = Key32::new(LOG);
    let (from, to) = (0, 9);
    let mut job = Job {
        epoch: 1,
        moment: 0,
        ranges: vec![in alloc; Range { log, from, to }]?,
        crls: Vec::new(alloc),
        entries: Vec::new(alloc),
    };
    for (issuer, count, revokes) in issuers {
        enroll(alloc, &mut job, *issuer, *count, *revokes)?;
    }
    Ok(job)
}

fn part_of<R: Threads + Sync, H: EquationHash + Sync, G: Gate + Sync>(
    rt: &R,
    alloc: Global,
    hash: &H,
    gate: &G,
    job: &Job,
    sharing: Sharing,
    workers: u32,
) -> Result<Result<Part, BuildFault>, Fail>
    requires some_workers { 1 ≤ workers }
    requires few_workers { workers ≤ 64 }
{
    let few = job.crls.len() <= 65_535 && job.entries.len() <= 4_194_304;
    let fits = job.ranges.len() <= 1024 && ranges_fit(&job.ranges);
    if !(few && fits) {
        return Err(Fail::from(BuildFault::NoMemory));
    }
    let Admitted { head, groups, .. } = first(alloc, job, &Limits::PUBLISHED)?;
    if groups.len() > 65_535 {
        return Err(Fail::from(BuildFault::NoMemory));
    }
    let groups = groups.as_slice();
    let format = Format::Sharded;
    Ok(match sharing {
        Sharing::Cut => build_part(rt, alloc, hash, gate, groups, head, workers, format),
        Sharing::Claimed => build_part_claimed(
            rt, alloc, hash, gate, groups, head, workers, format,
        ),
    })
}

// Both issuers have no exact stage, and then the second alone: of the first nothing is revoked. One worker refuses the
// same issuer as two, however they share the groups.
#[test]
fn one_worker_and_two_refuse_the_same(rt: HostRuntime) -> Result<(), Fail> {
    let alloc = rt.alloc();
    for (revokes, issuer, sharing) in [
        (true, 0x22, Sharing::Cut),
        (true, 0x22, Sharing::Claimed),
        (false, 0x33, Sharing::Cut),
        (false, 0x33, Sharing::Claimed),
    ] {
        let job = job_of(alloc, &[(0x22, 4, revokes), (0x33, 2, true)])?;
        let issuer = Key32::new([issuer; 32]);
        let refused = Some(BuildFault::SeedsExhausted { issuer, stage: 2 });
        let by_one = part_of(&rt, alloc, &RowsAlike, &Open, &job, sharing, 1)?.err();
        let by_two = part_of(&rt, alloc, &RowsAlike, &Open, &job, sharing, 2)?.err();
        assert_eq!(&rt; [by_one, by_two], [refused, refused], "{sharing:?}");
    }
    Ok(())
}

// Notes the places that enter, from 1, as digits.
#[derive(Default, Drop)]
struct Watch(AtomicU32);

impl Gate for Watch {
    fn enter(&self, place: u32) {
        let before = self.0.load(SeqCst).wrapping_mul(10);
        self.0
            .store(before.wrapping_add(place).wrapping_add(1), SeqCst);
    }
}

// With one worker each leaf enters once, in order: of three groups, and of two, the first of which has two shards.
#[test]
fn each_enters_in_order(rt: HostRuntime) -> Result<(), Fail> {
    for issuers in [
        [(0x22, 2, true), (0x33, 60, true), (0x44, 300, true)].as_slice(),
        [(0x22, 40_000, true), (0x33, 2, true)].as_slice(),
    ] {
        let job = job_of(rt.alloc(), issuers)?;
        for sharing in BOTH {
            let watch = Watch::default();
            let _ = part_of(&rt, rt.alloc(), &Sha256Rows, &watch, &job, sharing, 1)??;
            assert_eq!(&rt; watch.0.load(SeqCst), 123, "{issuers:?}, {sharing:?}");
        }
    }
    Ok(())
}

// The rows of `Sha256Rows`. The first row of each of two leaves enters a gate: of the issuers 0x22 and 0x33, or, with a
// shift of 1, of the two shards of 0x22.
#[derive(Drop)]
struct Meet {
    shift: u8,
    begun: [AtomicBool; 2],
    gate: Holds,
    ghost low: { shift ≤ 1 },
}

impl EquationHash for Meet {
    ghost use Rattle.equation_core.specs.Rows.{sha256_row};
    ghost use Rattle.equation_core.specs.RowLaws.{sha256_row-is};

    ghost row_of = { λ _ stage seed id starts. sha256_row stage seed id starts };

    ghost formed = { λ _ stage seed id starts _ _ some _. sha256_row-is stage seed id starts some };

    fn row(&self, stage: u8, seed: u8, id: &Identity, starts: u32) -> Row {
        let second = id.issuer == Key32::new([0x33; 32]) || shard_of(id, self.shift) == 1;
        if !self.begun[usize::from(second)].swap(true, SeqCst) {
            self.gate.enter(u32::from(second));
        }
        Sha256Rows.row(stage, seed, id, starts)
    }
}

// Two groups, and the two shards of one: in the first row of each leaf a thread waits for another in that of the other.
#[test]
fn two_workers_build_side_by_side(rt: HostRuntime) -> Result<(), Fail> {
    for (shift, issuers) in [
        (0, [(0x22, 2, true), (0x33, 2, true)].as_slice()),
        (1, [(0x22, 40_000, true)].as_slice()),
    ] {
        let job = job_of(rt.alloc(), issuers)?;
        for sharing in BOTH {
            let begun = [AtomicBool::new(false), AtomicBool::new(false)];
            let gate = Holds::new([0, 1], 2, MANY);
            let rows = Meet { shift, begun, gate };
            let _ = part_of(&rt, rt.alloc(), &rows, &Open, &job, sharing, 2)??;
            assert_eq!(&rt; rows.gate.passed(), 2, "{issuers:?}, {sharing:?}");
        }
    }
    Ok(())
}
