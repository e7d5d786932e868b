//! Where a worker's places come from: from one counter, or from a share of neighbours.
ghost use Rattle.std.specs.Prelude.{◌≡◌, ◌<◌, ◌≤◌, ℕ, IfSome, IfOk};

use crate::claims::{ClaimSeat, Claims};
use octets_core::NoMemory;
use std::alloc::Global;

pub(crate) trait Source: Sized {
    /// The places that come are below this.
    ghost below: { Self → ℕ };

    /// The next place, until none is left.
    fn next(&mut self) -> Option<u32>
        ensures place { IfSome result (λ place. place < below self.old) }
        ensures below { below self.new ≤ below self.old };

    /// One for so many of the workers, and one for the rest of them.
    fn split(self, alloc: Global, some: u32, workers: u32) -> Result<(Self, Self), NoMemory>
        requires { 1 ≤ workers }
        ensures some { IfOk result (λ r. below r.0 ≤ below self) }
        ensures rest { IfOk result (λ r. below r.1 ≤ below self) };
}

/// The numbers that a seat draws.
#[derive(Drop)]
pub(crate) struct Drawn<'a> {
    pub(crate) claims: &'a Claims,
    pub(crate) seat: ClaimSeat,
    ghost seated: { seat.claims ≡ claims.now.id },
}

impl<'a> Source for Drawn<'a> {
    ghost below = { λ s. s.claims.now.places };

    fn next(&mut self) -> Option<u32> {
        self.claims.draw(&mut self.seat)
    }

    fn split(
        self,
        alloc: Global,
        _some: u32,
        _workers: u32,
    ) -> Result<(Drawn<'a>, Drawn<'a>), NoMemory> {
        let Drawn { claims, mut seat } = self;
        let other = claims.split(alloc, &mut seat)?;
        Ok((
            Drawn {
                claims,
                seat: other,
            },
            Drawn { claims, seat },
        ))
    }
}

/// Neighbours, from one place up to another.
#[derive(Drop)]
pub(crate) struct Share {
    pub(crate) from: u32,
    pub(crate) to: u32,
    ghost up: { from ≤ to },
}

impl Source for Share {
    ghost below = { λ s. s.to };

    fn next(&mut self) -> Option<u32> {
        let place = self.from;
        if place == self.to {
            return None;
        }
        self.from = place + 1;
        Some(place)
    }

    fn split(self, _alloc: Global, some: u32, workers: u32) -> Result<(Share, Share), NoMemory> {
        let Share { from, to } = self;
        let places = u64::from(to - from);
        let at = from + (places * u64::from(some) / u64::from(workers)).min(places) as u32;
        Ok((Share { from, to: at }, Share { from: at, to }))
    }
}
