ghost use Rattle.std.specs.Prelude.{◌≡◌, ◌≤◌, ◌+◌, ◌++◌, [], ◌∷◌, length, take};
ghost use Rattle.equation_core.specs.declared.message.TheConstants.{IDENTITY};

use ident_core::{Identity, MAX_SERIAL};

/// The most bytes that an identity takes in a message.
pub(crate) const IDENTITY: usize = 33 + MAX_SERIAL;

/// Puts an identity into a message from a place on, as rows and shards have it: the issuer, the serial's length and the
/// serial. A message is one piece, since the hasher takes longer over several.
#[inline(always)]
pub(crate) fn put_identity(message: &mut [u8], at: usize, id: &Identity)
    requires { at + IDENTITY ≤ length message.old }
    ensures { take (at + 33 + length id.now.serial) message.new
        ≡ take at message.old ++ id.now.issuer ++ (length id.now.serial ∷ []) ++ id.now.serial }
{
    let serial = id.serial.bytes();
    message[at..at + 32].copy_from_slice(id.issuer.bytes());
    message[at + 32] = serial.len() as u8;
    message[at + 33..at + 33 + serial.len()].copy_from_slice(serial);
}
