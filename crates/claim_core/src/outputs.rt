//! Outputs that come back with their places, in any order, and the list of them by places.
ghost use Rattle.std.specs.Prelude.{◌≡◌, ◌⊎◌, ◌<◌, length, slice_set, All, Some, None, IfSome, IfOk};
ghost use Rattle.claim_core.specs.Work.{IsInPlace, IsPartlyInPlace, IsDone, HasOutput};

use crate::work::Work;
use octets_core::NoMemory;
use std::alloc::Global;

/// The output of a place.
#[derive(Drop)]
pub struct Done<T> {
    pub place: u32,
    pub output: T,
}

// As many places, none of which has an output.
fn blank<T: Drop>(alloc: Global, places: u32) -> Result<Vec<Option<T>>, NoMemory>
    ensures count { IfOk result (λ v. length v.items ≡ places) }
    ensures none { IfOk result (λ v. All (λ slot. slot ≡ None) v.items) }
{
    let mut slots = Vec::new(alloc);
    for _ in 0..places {
        slots.push(None)?;
    }
    Ok(slots)
}

// Puts an output at its place. Where one is there, it stays.
fn put<T: Drop>(slots: &mut Vec<Option<T>>, done: Done<T>)
    requires { done.place < length slots.old.items }
    ensures there { HasOutput slots.new.items done.place }
    ensures first { HasOutput slots.old.items done.place → slots.new.items ≡ slots.old.items }
    ensures rest { (slots.new.items ≡ slots.old.items) ⊎ (slots.new.items ≡ slice_set slots.old.items done.place (Some done.output)) }
{
    let place = done.place as usize;
    if slots[place].is_none() {
        slots[place] = Some(done.output);
    }
}

/// The outputs by their places. A second output of a place is dropped.
pub fn by_places<W: Work>(
    alloc: Global,
    jobs: &W,
    done: Vec<Done<W::Out>>,
) -> Result<Vec<Option<W::Out>>, NoMemory>
where
    W::Out: Drop,
    requires { All (IsDone (W.size jobs.now) (W.gives jobs.now)) done.items }
    ensures in_place { IfOk result (λ v. IsPartlyInPlace (W.gives jobs.now) v.items) }
    ensures kept { IfOk result (λ v. All (λ d. HasOutput v.items d.place) done.items) }
{
    let mut slots = blank(alloc, jobs.places())?;
    for one in done {
        put(&mut slots, one);
    }
    Ok(slots)
}

// The output that is there, or one that is worked here.
fn output_at<W: Work>(
    jobs: &W,
    place: u32,
    slot: Option<Option<W::Out>>,
) -> Result<W::Out, NoMemory>
where
    W::Out: Drop,
    requires place { place < W.size jobs.now }
    requires ready { W.ready jobs.now }
    requires slot { IfSome slot (λ there. IfSome there (W.gives jobs.now place)) }
    ensures { IfOk result (W.gives jobs.now place) }
{
    match slot {
        Some(Some(output)) => Ok(output),
        _ => jobs.work(place),
    }
}

/// The outputs in the order of their places. A place that has none is worked here.
pub fn completed<W: Work>(
    alloc: Global,
    jobs: &W,
    slots: Vec<Option<W::Out>>,
) -> Result<Vec<W::Out>, NoMemory>
where
    W::Out: Drop,
    requires slots { IsPartlyInPlace (W.gives jobs.now) slots.items }
    requires ready { W.ready jobs.now }
    ensures count { IfOk result (λ v. length v.items ≡ W.size jobs.now) }
    ensures in_place { IfOk result (λ v. IsInPlace (W.gives jobs.now) v.items) }
{
    let mut outputs = Vec::new(alloc);
    let mut left = slots.into_iter();
    for place in 0..jobs.places() {
        outputs.push(output_at(jobs, place, left.next())?)?;
    }
    Ok(outputs)
}
