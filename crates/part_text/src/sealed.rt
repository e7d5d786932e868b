//! Parts with their trailers.

ghost use Rattle.std.specs.Prelude.{◌≡◌};
ghost use Rattle.sha2.specs.Sha256.{sha256};
ghost use Rattle.part_text.specs.PartText.{unsealed_text};

use crate::text::put_unsealed;
use card_core::Part;
use octets_core::Key32;
use sha2::{Digest, Sha256};
use std::marker::Model;

/// A part with its trailer, which is the SHA-256 (FIPS 180-4) of the bytes of its text before it.
#[derive(Drop)]
pub struct Sealed {
    part: Part,
    trailer: Key32,
}

impl Model for Sealed {
    ghost use Rattle.std.specs.Prelude.{◌≡◌};
    ghost use Rattle.sha2.specs.Sha256.{sha256};
    ghost use Rattle.part_text.specs.SealedFields.{SealedFields};
    ghost use Rattle.part_text.specs.PartText.{unsealed_text};

    ghost Value = { SealedFields };

    ghost view = { λ s. record { part = s.part; trailer = s.trailer } };

    ghost invariant = { λ s. s.trailer ≡ sha256 (unsealed_text s.part) };
}

impl Sealed {
    /// A part whose trailer was tested.
    pub fn new(part: Part, trailer: Key32) -> Sealed
        requires { trailer ≡ sha256 (unsealed_text part) }
        ensures { result ≡ record { part = part; trailer = trailer } }
    {
        Sealed { part, trailer }
    }

    /// The part.
    pub fn part(&self) -> &Part
        ensures { result.now ≡ self.now.part }
    {
        &self.part
    }

    /// The SHA-256 of the text before it.
    pub fn trailer(&self) -> Key32
        ensures value { result ≡ self.now.trailer }
        ensures digest { self.now.trailer ≡ sha256 (unsealed_text self.now.part) }
    {
        self.trailer
    }
}

fn digest_of(part: &Part) -> Key32
    ensures { result ≡ sha256 (unsealed_text part.now) }
{
    let mut hasher = Sha256::new();
    let Ok(()) = put_unsealed(&mut hasher, part);
    Key32::new(hasher.finalize())
}

/// The part with its trailer. No memory is taken.
pub fn seal(part: Part) -> Sealed
    ensures { result ≡ record { part = part; trailer = sha256 (unsealed_text part) } }
{
    let trailer = digest_of(&part);
    Sealed { part, trailer }
}
