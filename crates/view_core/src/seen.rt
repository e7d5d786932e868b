//! Sightings as their caller keeps them.

ghost use Rattle.std.specs.Prelude.{◌≡◌};
ghost use Rattle.ident_core.specs.declared.range.Sighting.{Sighting};

use ident_core::Sighting;

/// What says when a log saw a certificate.
pub trait Seen {
    ghost sighting: { Self → Sighting };

    fn sighting(&self) -> Sighting
        ensures { result ≡ sighting self.now };
}

impl Seen for Sighting {
    ghost sighting = { λ s. s };

    fn sighting(&self) -> Sighting {
        *self
    }
}
