//! A store that takes a further part, as bytes that are lent.

ghost use Rattle.std.specs.Prelude.{◌≡◌, ◌<◌, ◌≤◌, ◌+◌, ◌^◌, [], ◌∷◌, ◌++◌, length, take, drop, IfOk, OnErr};
ghost use Rattle.part_codec.specs.Noting.{noted};
ghost use Rattle.view_core.specs.Installing.{part_alone, CountsWith, installed, IsInstalled};

use crate::check::newest_of_store;
use crate::scan::{ReadPart, noted_in, refusal_by};
use octets_core::{Field, LayoutFault, Why};
use part_codec::PartNote;
use store_core::{Refusal, StoreFault};

/// The offset of the byte that says how many parts a store has.
const COUNT_AT: usize = 9;

/// Why a part isn't installed.
#[derive(Clone, Copy, Debug, PartialEq, Eq)]
pub enum InstallFault {
    /// The bytes of the store aren't one.
    Store(StoreFault),
    /// The bytes of the part aren't one.
    Part(LayoutFault),
    /// The parts of the store don't take the part.
    Refused(Refusal),
    /// There is no room for so many bytes.
    RoomTooShort { wanted: usize },
    /// The store has 2^32 bytes or more.
    TooLong,
}

/// What is known of the part that the bytes are. An `Err` is the first fault.
pub fn check_part(part: &[u8]) -> Result<PartNote, LayoutFault>
    ensures value { result ≡ noted (part_alone part.now 0) }
    ensures whole { IfOk result (λ note. note.length ≡ length part.now) }
{
    let note = noted_in(part)?;
    if note.length < part.len() as u64 {
        return Err(LayoutFault {
            at: note.length,
            field: Field::End,
            why: Why::Value,
        });
    }
    Ok(note)
}

/// How many parts the store has with the part.
fn count_with(store: &[u8], part: &[u8]) -> Result<u8, InstallFault>
    ensures { CountsWith store.now part.now result }
{
    if store.len() >= 1 << 32 {
        return Err(InstallFault::TooLong);
    }
    let (count, held) = match newest_of_store(store) {
        Ok(found) => found,
        Err(fault) => return Err(InstallFault::Store(fault)),
    };
    let note = match check_part(part) {
        Ok(note) => note,
        Err(fault) => return Err(InstallFault::Part(fault)),
    };
    let given = ReadPart { note, at: 0 };
    match refusal_by(store, &held, part, &given, count as usize) {
        Some(why) => Err(InstallFault::Refused(why)),
        None => Ok(count + 1),
    }
}

/// Writes the bytes of a store, those of a part behind them, and how many parts there are then.
fn write_store(store: &[u8], part: &[u8], count: u8, new: &mut [u8])
    requires head { COUNT_AT < length store.now }
    requires room { length store.now + length part.now ≤ length new.old }
    ensures text { take (length store.now + length part.now) new.new
        ≡ take COUNT_AT store.now ++ (count ∷ []) ++ drop (COUNT_AT + 1) store.now ++ part.now }
    ensures behind { drop (length store.now + length part.now) new.new
        ≡ drop (length store.now + length part.now) new.old }
    ensures len { length new.new ≡ length new.old }
{
    let end = store.len();
    new[..end].copy_from_slice(store);
    new[COUNT_AT] = count;
    new[end..end + part.len()].copy_from_slice(part);
}

/// Writes the store with the part into the new bytes, and answers how many are written. An `Err` is the first reason
/// not to: that of the store, then that of the part, then that of the chain, and then want of room. Nothing is written
/// then.
pub fn install(store: &[u8], part: &[u8], new: &mut [u8]) -> Result<usize, InstallFault>
    ensures value { result ≡ installed store.now part.now (length new.old) }
    ensures text { IfOk result (λ n. IsInstalled store.now part.now new.new n) }
    ensures behind { IfOk result (λ n. drop n new.new ≡ drop n new.old) }
    ensures kept { OnErr result (new.new ≡ new.old) }
    ensures len { length new.new ≡ length new.old }
{
    let count = count_with(store, part)?;
    let wanted = store.len() + part.len();
    if new.len() < wanted {
        return Err(InstallFault::RoomTooShort { wanted });
    }
    write_store(store, part, count, new);
    Ok(wanted)
}
