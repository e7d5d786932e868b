//! What `claim_map` makes of work, whoever does it.

use crate::gates::{FEW, Holds, MANY, PAIRS};
use builder_core::Gate;
use claim_core::{Work, claim_map};
use octets_core::NoMemory;
use std::test::Fail;

// The square of each place, which enters the gate first.
#[derive(Drop)]
struct Squares {
    places: u32,
    gate: Holds,
}

impl Work for Squares {
    type Out = u64;

    ghost use Rattle.std.specs.Prelude.{◌≡◌, ◌*◌};

    ghost size = { λ s. s.places };

    ghost ready = { λ _. Unit {0} };

    ghost gives = { λ _ place output. output ≡ place * place };

    fn places(&self) -> u32 {
        self.places
    }

    fn work(&self, place: u32) -> Result<u64, NoMemory> {
        self.gate.enter(place);
        Ok(u64::from(place) * u64::from(place))
    }
}

// Two workers wait at the kept places, and the third works the others. With shares that are fixed before the work two
// places are in one, and the second of them would never be entered while the first is kept.
#[test]
fn two_places_that_are_kept_hold_up_no_other(rt: HostRuntime) -> Result<(), Fail> {
    for kept in PAIRS {
        let gate = Holds::new(kept, 4, MANY);
        let jobs = Squares { places: 4, gate };
        let squares = claim_map(&rt, rt.alloc(), &jobs, 3)?;
        assert_eq!(&rt; jobs.gate.passed(), 2, "places {kept:?}");
        assert_eq!(&rt; squares.as_slice(), [0, 1, 4, 9].as_slice());
    }
    Ok(())
}

// A third would enter the places that aren't kept. The first of two to give up does so, and the other may pass.
#[test]
fn two_workers_are_no_more(rt: HostRuntime) -> Result<(), Fail> {
    let gate = Holds::new([0, 1], 4, FEW);
    let jobs = Squares { places: 4, gate };
    let _ = claim_map(&rt, rt.alloc(), &jobs, 2)?;
    assert!(&rt; jobs.gate.passed() < 2);
    Ok(())
}
