//! Where a text is written: behind what a vector holds, or into a hasher.

ghost use Rattle.std.specs.Prelude.{◌≡◌, ℕ, List, OnOk};
ghost use Rattle.sha2.specs.Hashers.{Holds256};
ghost use Rattle.part_text.specs.Output.{Wrote};

use octets_core::{NoMemory, put_bytes};
use sha2::{Digest, Sha256};
use std::convert::Infallible;

/// What takes the bytes of a text, piece after piece.
pub(crate) trait Output {
    /// Why it can't take a piece.
    type Fault: Drop;

    /// All the bytes that it was given.
    ghost given: { Self → List ℕ → Type 0 };

    /// Takes the bytes, behind those before.
    fn put(&mut self, bytes: &[u8]) -> Result<(), Self::Fault>
        ensures { OnOk result (Wrote given self.old self.new bytes.now) };
}

impl Output for Vec<u8> {
    type Fault = NoMemory;

    ghost given = { λ out bytes. out.items ≡ bytes };

    fn put(&mut self, bytes: &[u8]) -> Result<(), NoMemory> {
        put_bytes(self, bytes)
    }
}

/// A hasher takes each piece.
impl Output for Sha256 {
    type Fault = Infallible;

    ghost given = { Holds256 };

    fn put(&mut self, bytes: &[u8]) -> Result<(), Infallible> {
        self.update(bytes);
        Ok(())
    }
}
