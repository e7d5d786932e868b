ghost use Rattle.std.specs.Prelude.{◌≡◌, ◌++◌, List, ℕ, IsSome, IsOk, OnOk, OnErr};
ghost use Rattle.std.specs.FinMap.{get, insert};
ghost use Rattle.outside_core.specs.Files.{held};
ghost use Rattle.outside_core.specs.Entries.{place_of, files_of};

use octets_core::NoMemory;
use std::alloc::Global;

/// A name and what it holds.
#[derive(Drop)]
pub struct Entry {
    pub name: String,
    pub bytes: Vec<u8>,
}

/// The place of a name.
pub fn place(entries: &[Entry], name: &str) -> Option<usize>
    ensures { result ≡ place_of entries.now name.now }
{
    entries.iter().position(|e| e.name.as_str() == name)
}

/// Makes the name hold the bytes. After want of memory, which only a name that isn't held can meet, all is as before.
pub fn put(
    alloc: Global,
    entries: &mut Vec<Entry>,
    name: &str,
    bytes: Vec<u8>,
) -> Result<(), NoMemory>
    ensures ok { OnOk result (files_of entries.new.items ≡ insert (files_of entries.old.items) name.now bytes.items) }
    ensures err { OnErr result (entries.new.items ≡ entries.old.items) }
    ensures held { IsSome (get (files_of entries.old.items) name.now) → IsOk result }
{
    match place(entries, name) {
        Some(i) => {
            let entry = &mut entries[i];
            entry.bytes = bytes;
        }
        None => {
            let name = String::from_str(alloc, name)?;
            entries.push(Entry { name, bytes })?;
        }
    }
    Ok(())
}

/// Adds the bytes behind what the name holds. After want of memory it holds what it held.
pub fn add(
    alloc: Global,
    entries: &mut Vec<Entry>,
    name: &str,
    bytes: &[u8],
) -> Result<(), NoMemory>
    ensures ok { OnOk result (files_of entries.new.items
        ≡ insert (files_of entries.old.items) name.now (held (files_of entries.old.items) name.now ++ bytes.now)) }
    ensures err { OnErr result (files_of entries.new.items ≡ files_of entries.old.items) }
{
    match place(entries, name) {
        Some(i) => {
            let entry = &mut entries[i];
            entry.bytes.extend_from_slice(bytes)?;
        }
        None => put(alloc, entries, name, bytes.to_vec(alloc)?)?,
    }
    Ok(())
}
