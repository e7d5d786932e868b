ghost use Rattle.std.specs.Prelude.{◌≡◌, ◌≤◌, ◌<◌, ◌++◌, [], ◌∷◌, length, nat_eq};

use crate::bounds::MAX_SCTS;
use ident_core::Sighting;
use octets_core::Key32;
use std::marker::Model;

/// At most 64 sightings. Contracts see it as their list.
#[derive(Debug, Drop)]
pub(crate) struct Sightings {
    count: u8,
    places: [Sighting; MAX_SCTS],
}

impl Model for Sightings {
    ghost use Rattle.std.specs.Prelude.{List, ◌≡◌, ◌≤◌, length, take};
    ghost use Rattle.ident_core.specs.declared.range.Sighting.{Sighting};
    ghost use Rattle.sct_core.specs.declared.bounds.TheConstants.{MAX_SCTS};

    ghost Value = { List Sighting };

    ghost view = { λ s. take s.count s.places };

    ghost invariant = { λ s. (s.count ≤ MAX_SCTS) × (length s.places ≡ MAX_SCTS) };
}

impl Sightings {
    pub(crate) fn new() -> Sightings
        ensures { result ≡ [] }
    {
        let unused = Sighting {
            log: Key32::new([0; 32]),
            time: 0,
        };
        Sightings {
            count: 0,
            places: [unused; MAX_SCTS],
        }
    }

    pub(crate) fn is_full(&self) -> bool
        ensures value { result ≡ nat_eq (length self.now) MAX_SCTS }
        ensures few { length self.now ≤ MAX_SCTS }
    {
        self.count as usize == MAX_SCTS
    }

    pub(crate) fn is_empty(&self) -> bool
        ensures value { result ≡ nat_eq (length self.now) 0 }
        ensures few { length self.now ≤ MAX_SCTS }
    {
        self.count == 0
    }

    pub(crate) fn push(&mut self, sighting: Sighting)
        requires { length self.now < MAX_SCTS }
        ensures { self.new ≡ self.old ++ sighting ∷ [] }
    {
        self.places[self.count as usize] = sighting;
        self.count += 1;
    }

    pub(crate) fn as_slice(&self) -> &[Sighting]
        ensures value { result.now ≡ self.now }
        ensures few { length self.now ≤ MAX_SCTS }
    {
        &self.places[..self.count as usize]
    }
}

/// What the signed certificate timestamps of version 1 of a certificate say, 1 to 64 of them. Contracts see it as the
/// list of the sightings.
#[derive(Debug, Drop)]
pub struct Scts {
    list: Sightings,
}

impl Model for Scts {
    ghost use Rattle.std.specs.Prelude.{List, ◌≤◌, length};
    ghost use Rattle.ident_core.specs.declared.range.Sighting.{Sighting};

    ghost Value = { List Sighting };

    ghost view = { λ s. s.list };

    ghost invariant = { λ s. 1 ≤ length s.list };
}

impl Scts {
    pub(crate) fn new(list: Sightings) -> Scts
        requires { 1 ≤ length list }
        ensures { result ≡ list }
    {
        Scts { list }
    }

    /// The log and the time of each, in the order of the certificate.
    pub fn sightings(&self) -> &[Sighting]
        ensures value { result.now ≡ self.now }
        ensures some { 1 ≤ length self.now }
        ensures few { length self.now ≤ MAX_SCTS }
    {
        self.list.as_slice()
    }
}
