//! Files in memory.

use std::alloc::Global;
use std::collections::BTreeMap;
use std::test::Fail;

/// Files under names.
pub type Files = BTreeMap<String, Vec<u8>>;

/// Puts these files in the place of those of their names.
pub(crate) fn put_all(files: &mut Files, these: &Files) -> Result<(), Fail> {
    for (name, bytes) in these.iter() {
        files.insert(name.clone()?, bytes.clone()?)?;
    }
    Ok(())
}

/// Files of the same names and bytes.
pub(crate) fn copied(alloc: Global, files: &Files) -> Result<Files, Fail> {
    let mut copy = BTreeMap::new(alloc);
    put_all(&mut copy, files)?;
    Ok(copy)
}
