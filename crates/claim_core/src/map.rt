ghost use Rattle.std.specs.Prelude.{◌≡◌, ◌≤◌, length, All, IfOk};
ghost use denote.Param.Send.{IsSend, IsSync};
ghost use Rattle.claim_core.specs.Work.{IsInPlace, IsDone};

use crate::claims::Claims;
use crate::outputs::{Done, by_places, completed};
use crate::source::{Drawn, Share, Source};
use crate::work::Work;
use octets_core::NoMemory;
use std::alloc::Global;
use std::thread::{Threads, join};

/// One output for each place, in the order of the places, by as many threads as there are workers, or places where
/// these are fewer. Each draws its places from one counter until none is left. One worker works all on the caller's
/// thread.
pub fn claim_map<R: Threads + Sync, W: Work + Sync>(
    rt: &R,
    alloc: Global,
    jobs: &W,
    workers: u32,
) -> Result<Vec<W::Out>, NoMemory>
where
    W::Out: Send + Drop,
    requires workers { (1 ≤ workers) × (workers ≤ 64) }
    requires ready { W.ready jobs.now }
    ensures count { IfOk result (λ v. length v.items ≡ W.size jobs.now) }
    ensures in_place { IfOk result (λ v. IsInPlace (W.gives jobs.now) v.items) }
{
    let (claims, seat) = Claims::new(alloc, jobs.places())?;
    let source = Drawn {
        claims: &claims,
        seat,
    };
    source_map(rt, alloc, jobs, source, workers)
}

/// One output for each place, in the order of the places, as `claim_map` gives them. But the places are cut into as
/// many shares of neighbours as there are workers, or places where these are fewer, and each thread works a share.
pub fn share_map<R: Threads + Sync, W: Work + Sync>(
    rt: &R,
    alloc: Global,
    jobs: &W,
    workers: u32,
) -> Result<Vec<W::Out>, NoMemory>
where
    W::Out: Send + Drop,
    requires workers { (1 ≤ workers) × (workers ≤ 64) }
    requires ready { W.ready jobs.now }
    ensures count { IfOk result (λ v. length v.items ≡ W.size jobs.now) }
    ensures in_place { IfOk result (λ v. IsInPlace (W.gives jobs.now) v.items) }
{
    let source = Share {
        from: 0,
        to: jobs.places(),
    };
    source_map(rt, alloc, jobs, source, workers)
}

// The same, where the places come from this source.
fn source_map<R: Threads + Sync, W: Work + Sync, S: Source + Send + Drop>(
    rt: &R,
    alloc: Global,
    jobs: &W,
    source: S,
    workers: u32,
) -> Result<Vec<W::Out>, NoMemory>
where
    W::Out: Send + Drop,
    requires source { S.below source ≤ W.size jobs.now }
    requires ready { W.ready jobs.now }
    ensures count { IfOk result (λ v. length v.items ≡ W.size jobs.now) }
    ensures in_place { IfOk result (λ v. IsInPlace (W.gives jobs.now) v.items) }
{
    let workers = workers.min(jobs.places()).max(1);
    let done = work_by(rt, alloc, jobs, source, workers)?;
    let slots = by_places(alloc, jobs, done)?;
    completed(alloc, jobs, slots)
}

// What the workers did, halved into threads until each has one worker.
#[cycle(work_by)]
fn work_by<R: Threads + Sync, W: Work + Sync, S: Source + Send + Drop>(
    rt: &R,
    alloc: Global,
    jobs: &W,
    mut source: S,
    workers: u32,
) -> Result<Vec<Done<W::Out>>, NoMemory>
where
    W::Out: Send + Drop,
    requires some { 1 ≤ workers }
    requires source { S.below source ≤ W.size jobs.now }
    requires ready { W.ready jobs.now }
    ensures { IfOk result (λ v. All (IsDone (W.size jobs.now) (W.gives jobs.now)) v.items) }
{
    if workers == 1 {
        return work_alone(alloc, jobs, &mut source);
    }
    let half = workers / 2;
    let rest = workers - half;
    let (one, other) = source.split(alloc, half, workers)?;
    let front = move || -> Result<Vec<Done<W::Out>>, NoMemory>
        requires { IsSync R.row × IsSync W.row × IsSend W.Out.row × IsSend S.row
            × (1 ≤ half) × (S.below one ≤ W.size jobs.now) × W.ready jobs.now }
        ensures { IfOk result (λ v. All (IsDone (W.size jobs.entry.now) (W.gives jobs.entry.now)) v.items) }
    { work_by(rt, alloc, jobs, one, half) };
    let back = move || -> Result<Vec<Done<W::Out>>, NoMemory>
        requires { IsSync R.row × IsSync W.row × IsSend W.Out.row × IsSend S.row
            × (1 ≤ rest) × (S.below other ≤ W.size jobs.now) × W.ready jobs.now }
        ensures { IfOk result (λ v. All (IsDone (W.size jobs.entry.now) (W.gives jobs.entry.now)) v.items) }
    { work_by(rt, alloc, jobs, other, rest) };
    let (first, second) = join(rt, front, back);
    let mut done = first?;
    let mut more = second?;
    done.append(&mut more)?;
    Ok(done)
}

// One worker works what comes of the source, but at most once more than there are places.
fn work_alone<W: Work, S: Source>(
    alloc: Global,
    jobs: &W,
    source: &mut S,
) -> Result<Vec<Done<W::Out>>, NoMemory>
where
    W::Out: Drop,
    requires source { S.below source.old ≤ W.size jobs.now }
    requires ready { W.ready jobs.now }
    ensures { IfOk result (λ v. All (IsDone (W.size jobs.now) (W.gives jobs.now)) v.items) }
{
    let mut done = Vec::new(alloc);
    for _ in 0..=jobs.places() {
        let Some(place) = source.next() else {
            break;
        };
        let output = jobs.work(place)?;
        done.push(Done { place, output })?;
    }
    Ok(done)
}
