//! A text on its way into a file, offered in pieces of one size.

ghost use Rattle.std.specs.Prelude.{◌≡◌, ◌+◌, ◌≤◌, ◌<◌, ◌++◌, [], length, vec_len, vec_capacity, IfOk, OnOk, OnErr};
ghost use Rattle.outside_core.specs.Files.{extending, Torn, KeepsOthers, Rose};
ghost use Rattle.outside_core.specs.Effects.{OnlyWrites};
ghost use Rattle.sample_core.specs.Writing.{Moved};
ghost use Rattle.sample_core.specs.declared.buffer.TheConstants.{ROOM};

use octets_core::NoMemory;
use outside_core::{Depot, Failed, append_all};
use std::alloc::Global;
use std::marker::Model;

/// How many bytes are offered together.
const ROOM: usize = 65_536;

/// The bytes of a text that aren't offered yet.
#[derive(Drop)]
pub struct Buffer {
    held: Vec<u8>,
}

impl Model for Buffer {
    ghost use Rattle.std.specs.Prelude.{List, ℕ, ◌<◌, ◌≤◌, vec_len, vec_capacity};
    ghost use Rattle.sample_core.specs.declared.buffer.TheConstants.{ROOM};

    ghost Value = { List ℕ };

    ghost view = { λ b. b.held.items };

    ghost invariant = { λ b. (vec_len b.held < ROOM) × (ROOM ≤ vec_capacity b.held) };
}

/// Appends the bytes, for which there is room.
fn put_within(out: &mut Vec<u8>, bytes: &[u8])
    requires { vec_len out.old + length bytes.now ≤ vec_capacity out.old }
    ensures items { out.new.items ≡ out.old.items ++ bytes.now }
    ensures len { vec_len out.new ≡ vec_len out.old + length bytes.now }
    ensures room { vec_capacity out.old ≤ vec_capacity out.new }
{
    let _ = out.extend_from_slice(bytes);
}

impl Buffer {
    /// A buffer that holds the bytes.
    pub fn new(alloc: Global, bytes: &[u8]) -> Result<Buffer, NoMemory>
        requires { length bytes.now < ROOM }
        ensures { IfOk result (λ b. b ≡ bytes.now) }
    {
        let mut held = Vec::with_capacity(alloc, ROOM)?;
        put_within(&mut held, bytes);
        Ok(Buffer { held })
    }

    /// Takes bytes behind those that it holds, and writes those that make it full.
    pub fn put<D: Depot>(&mut self, depot: &mut D, name: &str, bytes: &[u8]) -> Result<(), Failed>
        requires { length bytes.now ≤ ROOM }
        ensures ok { OnOk result (Moved (D.files depot.old) (D.files depot.new) name.now self.old bytes.now self.new) }
        ensures err { OnErr result (Torn (D.files depot.old) (D.files depot.new) name.now (self.old ++ bytes.now)) }
        ensures others { KeepsOthers (D.files depot.old) (D.files depot.new) name.now }
        ensures cause { OnErr result (Rose (D.write_faults depot.old) (D.write_faults depot.new)) }
        ensures only_writes { OnlyWrites D.Depot depot.old depot.new }
    {
        let room = ROOM - self.held.len();
        if bytes.len() < room {
            put_within(&mut self.held, bytes);
            return Ok(());
        }
        put_within(&mut self.held, &bytes[..room]);
        let written = append_all(depot, name, self.held.as_slice());
        self.held.clear();
        put_within(&mut self.held, &bytes[room..]);
        written
    }

    /// Writes what it holds.
    pub fn write_rest<D: Depot>(&self, depot: &mut D, name: &str) -> Result<(), Failed>
        ensures ok { OnOk result (D.files depot.new ≡ extending (D.files depot.old) name.now self.now) }
        ensures err { OnErr result (Torn (D.files depot.old) (D.files depot.new) name.now self.now) }
        ensures others { KeepsOthers (D.files depot.old) (D.files depot.new) name.now }
        ensures cause { OnErr result (Rose (D.write_faults depot.old) (D.write_faults depot.new)) }
        ensures only_writes { OnlyWrites D.Depot depot.old depot.new }
    {
        append_all(depot, name, self.held.as_slice())
    }
}
