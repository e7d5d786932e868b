//! The places of issuers, kept as they were drawn.

ghost use Rattle.std.specs.Prelude.{◌≡◌, ◌<◌, IfSome};
ghost use Rattle.place_core.specs.Places.{issuer_place};

use octets_core::Key32;
use place_core::{PlaceCount, place_of_issuer};
use std::marker::Model;

/// How many places are kept: one for each last octet of an issuer.
const KEPT: usize = 256;

/// The place of an issuer among so many.
#[derive(Clone, Copy, Debug)]
struct Drawn {
    issuer: Key32,
    count: PlaceCount,
    place: u32,
}

impl Model for Drawn {
    ghost use Rattle.std.specs.Prelude.{ℕ, List};
    ghost use Rattle.piece_core.specs.Drawn.{IsDrawn, drawn_of, drawn_of-is};

    ghost Value = { List ℕ × ℕ };

    ghost view = { λ d. (d.issuer, d.count) };

    ghost invariant = { λ d. IsDrawn d.issuer d.count d.place };

    ghost inverse = { drawn_of };

    ghost inverse_ok = { λ d h. drawn_of-is d h };
}

impl Drawn {
    fn new(issuer: &Key32, count: PlaceCount) -> Drawn
        ensures { result ≡ (issuer.now, count) }
    {
        Drawn {
            issuer: *issuer,
            count,
            place: place_of_issuer(issuer, count),
        }
    }

    fn place(&self) -> u32
        ensures value { result ≡ issuer_place self.now.0 self.now.1 }
        ensures below { result < self.now.1 }
    {
        self.place
    }

    /// The place, where it is that of this issuer among so many.
    fn place_of(&self, issuer: &Key32, count: PlaceCount) -> Option<u32>
        ensures value { IfSome result (λ p. p ≡ issuer_place issuer.now count) }
        ensures below { IfSome result (λ p. p < count) }
    {
        if self.count == count && self.issuer == *issuer {
            Some(self.place)
        } else {
            None
        }
    }
}

/// The places of the issuers that were asked for last, so that few are digested again.
#[derive(Clone, Copy, Debug)]
pub struct IssuerPlaces {
    drawn: [Drawn; KEPT],
}

impl IssuerPlaces {
    /// Places that none has asked for yet.
    pub fn new(count: PlaceCount) -> IssuerPlaces {
        IssuerPlaces {
            drawn: [Drawn::new(&Key32::new([0; 32]), count); KEPT],
        }
    }

    /// The place of an issuer among so many.
    pub fn place_of(&mut self, issuer: &Key32, count: PlaceCount) -> u32
        ensures value { result ≡ issuer_place issuer.now count }
        ensures below { result < count }
    {
        let at = issuer.bytes()[31] as usize;
        match self.drawn[at].place_of(issuer, count) {
            Some(place) => place,
            None => {
                let drawn = Drawn::new(issuer, count);
                self.drawn[at] = drawn;
                drawn.place()
            }
        }
    }
}
