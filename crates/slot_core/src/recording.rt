ghost use Rattle.std.specs.Prelude.{◌≡◌, ◌∷◌, ◌++◌, [], OnOk, OnErr, IfOk};
ghost use Rattle.slot_core.specs.Steps.{overwritten, content, Write, Sync};

use std::alloc::{AllocError, Global};
use std::marker::Model;

/// What a call did to the bytes.
#[derive(Drop)]
pub(crate) enum Change {
    Write(u64, Vec<u8>),
    Sync,
}

/// The bytes with these over them, and zeros between.
fn overwrite(alloc: Global, old: &[u8], at: u64, bytes: &[u8]) -> Result<Vec<u8>, AllocError>
    ensures { IfOk result (λ new. new.items ≡ overwritten at bytes.now old.now) }
{
    let at = at as usize;
    let mut next = old[..at.min(old.len())].to_vec(alloc)?;
    let gap = vec![in alloc; 0; at.saturating_sub(old.len())]?;
    next.extend_from_slice(&gap)?;
    next.extend_from_slice(bytes)?;
    if at < old.len() && bytes.len() < old.len() - at {
        next.extend_from_slice(&old[at + bytes.len()..])?;
    }
    Ok(next)
}

/// The writes and syncs of a disk in their order, and the bytes that they left. Contracts see it as the list of these
/// steps.
#[derive(Drop)]
pub(crate) struct Recording {
    alloc: Global,
    changes: Vec<Change>,
    bytes: Vec<u8>,
}

impl Model for Recording {
    ghost use Rattle.std.specs.Prelude.{List, [], ◌≡◌};
    ghost use Rattle.std.specs.Coded.{coded_list};
    ghost use Rattle.slot_core.specs.Steps.{Step, step_code, content};
    ghost use Rattle.slot_core.specs.Changes.{steps_of};

    ghost Value = { List Step };

    ghost coded = { coded_list step_code };

    ghost view = { λ r. steps_of r.changes.items };

    ghost invariant = { λ r. content [] (steps_of r.changes.items) ≡ r.bytes.items };
}

impl Recording {
    pub(crate) fn new(alloc: Global) -> Recording
        ensures { result ≡ [] }
    {
        Recording {
            alloc,
            changes: Vec::new(alloc),
            bytes: Vec::new(alloc),
        }
    }

    /// What the steps left.
    pub(crate) fn bytes(&self) -> &[u8]
        ensures { result.now ≡ content [] self.now }
    {
        &self.bytes
    }

    pub(crate) fn write(&mut self, at: u64, bytes: &[u8]) -> Result<(), AllocError>
        ensures ok { OnOk result (self.new ≡ self.old ++ Write at bytes.now ∷ []) }
        ensures err { OnErr result (self.new ≡ self.old) }
    {
        let next = overwrite(self.alloc, &self.bytes, at, bytes)?;
        let piece = bytes.to_vec(self.alloc)?;
        self.changes.push(Change::Write(at, piece))?;
        self.bytes = next;
        Ok(())
    }

    pub(crate) fn sync(&mut self) -> Result<(), AllocError>
        ensures ok { OnOk result (self.new ≡ self.old ++ Sync ∷ []) }
        ensures err { OnErr result (self.new ≡ self.old) }
    {
        self.changes.push(Change::Sync)?;
        Ok(())
    }
}
