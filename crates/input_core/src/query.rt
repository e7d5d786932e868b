ghost use Rattle.std.specs.Prelude.{◌≡◌};
ghost use Rattle.input_core.specs.Queries.{sightings_in};

use ident_core::{Identity, Sighting};

/// The most queries of a file.
pub const MAX_QUERIES: u32 = 65_536;

/// The most sightings of a query.
pub const MAX_SIGHTINGS: u8 = 64;

/// The sightings of a query. Most certificates are asked with one, which stands in place.
#[derive(Debug, Drop)]
pub enum Sightings {
    /// One, in place.
    One([Sighting; 1]),
    /// Any others.
    Several(Vec<Sighting>),
}

impl Sightings {
    /// The sightings, in their order.
    pub fn as_slice(&self) -> &[Sighting]
        ensures { result.now ≡ sightings_in self.now }
    {
        match self {
            Sightings::One(sighting) => sighting.as_slice(),
            Sightings::Several(sightings) => sightings.as_slice(),
        }
    }
}

/// A certificate to ask a store about.
#[derive(Debug, Drop)]
pub struct Asked {
    /// Its issuer and serial.
    pub identity: Identity,
    /// When logs saw it, in the order of the file.
    pub sightings: Sightings,
}
