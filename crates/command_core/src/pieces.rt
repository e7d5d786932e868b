//! Texts, whole ones and those in pieces that several threads made, on their way into a file.

ghost use Rattle.std.specs.Prelude.{◌≡◌, ◌≤◌, ◌++◌, OnOk, OnErr};
ghost use Rattle.sha2.specs.Sha256.{sha256};
ghost use Rattle.outside_core.specs.Effects.{OnlyWrites};
ghost use Rattle.outside_core.specs.Files.{Rose, Torn, extending, putting};
ghost use Rattle.command_core.specs.Digested.{concatenated};
ghost use Rattle.command_core.specs.Runs.{IsLeft};

use outside_core::{Depot, Failed, append_all};
use sha2::{Digest, Sha256};
use std::thread::{Threads, join_mut};

/// The SHA-256 (FIPS 180-4) of the pieces, one behind the other.
fn digest_of(pieces: &[Vec<u8>]) -> [u8; 32]
    ensures { result ≡ sha256 (concatenated pieces.now) }
{
    let mut hasher = Sha256::new();
    for piece in pieces {
        hasher.update(piece.as_slice());
    }
    hasher.finalize()
}

/// Adds the pieces in their order behind what a file holds.
fn append_pieces<D: Depot>(depot: &mut D, name: &str, pieces: &[Vec<u8>]) -> Result<(), Failed>
    ensures ok { OnOk result (D.files depot.new ≡ extending (D.files depot.old) name.now (concatenated pieces.now)) }
    ensures err { OnErr result (Torn (D.files depot.old) (D.files depot.new) name.now (concatenated pieces.now)) }
    ensures cause { OnErr result (Rose (D.write_faults depot.old) (D.write_faults depot.new)) }
    ensures only_writes { OnlyWrites D.Depot depot.old depot.new }
{
    for piece in pieces {
        append_all(depot, name, piece.as_slice())?;
    }
    Ok(())
}

/// Begins the file of this name, and adds the bytes.
pub(crate) fn write_whole<D: Depot>(depot: &mut D, name: &str, bytes: &[u8]) -> Result<(), Failed>
    ensures ok { OnOk result (D.files depot.new ≡ putting (D.files depot.old) name.now bytes.now) }
    ensures err { OnErr result (IsLeft (D.files depot.old) (D.files depot.new) (record { name = name.now; bytes = bytes.now })) }
    ensures cause { OnErr result (Rose (D.write_faults depot.old) (D.write_faults depot.new)) }
    ensures only_writes { OnlyWrites D.Depot depot.old depot.new }
{
    depot.begin(name)?;
    append_all(depot, name, bytes)
}

/// Begins the file of this name, and adds the pieces in their order.
fn write_pieces<D: Depot>(depot: &mut D, name: &str, pieces: &[Vec<u8>]) -> Result<(), Failed>
    ensures ok { OnOk result (D.files depot.new ≡ putting (D.files depot.old) name.now (concatenated pieces.now)) }
    ensures err { OnErr result (IsLeft (D.files depot.old) (D.files depot.new)
        (record { name = name.now; bytes = concatenated pieces.now })) }
    ensures cause { OnErr result (Rose (D.write_faults depot.old) (D.write_faults depot.new)) }
    ensures only_writes { OnlyWrites D.Depot depot.old depot.new }
{
    depot.begin(name)?;
    append_pieces(depot, name, pieces)
}

/// Begins the file of this name, and adds a text, which the pieces make, and its digest. One thread draws the digest
/// while another begins the file, which may wait for a disk, and writes the pieces.
pub(crate) fn write_digested<R: Threads, D: Depot>(
    rt: &R,
    depot: &mut D,
    name: &str,
    pieces: &[Vec<u8>],
) -> Result<(), Failed>
    ensures ok { OnOk result (D.files depot.new ≡ putting (D.files depot.old) name.now
        (concatenated pieces.now ++ sha256 (concatenated pieces.now))) }
    ensures err { OnErr result (IsLeft (D.files depot.old) (D.files depot.new)
        (record { name = name.now; bytes = concatenated pieces.now ++ sha256 (concatenated pieces.now) })) }
    ensures cause { OnErr result (Rose (D.write_faults depot.old) (D.write_faults depot.new)) }
    ensures only_writes { OnlyWrites D.Depot depot.old depot.new }
{
    let mut draw = || -> [u8; 32]
        ensures { result ≡ sha256 (concatenated pieces.entry.now) }
    { digest_of(pieces) };
    let mut write = || -> Result<(), Failed>
        ensures { OnOk result (D.files depot.exit.now ≡ putting (D.files depot.entry.now) name.entry.now (concatenated pieces.entry.now))
            × OnErr result (IsLeft (D.files depot.entry.now) (D.files depot.exit.now)
            (record { name = name.entry.now; bytes = concatenated pieces.entry.now }))
            × OnErr result (Rose (D.write_faults depot.entry.now) (D.write_faults depot.exit.now))
            × OnlyWrites D.Depot depot.entry.now depot.exit.now }
    { write_pieces(depot, name, pieces) };
    let (digest, written) = join_mut(rt, &mut draw, &mut write);
    written?;
    append_all(depot, name, &digest)
}
