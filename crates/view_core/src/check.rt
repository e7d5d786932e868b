//! Whether bytes are a store.

ghost use Rattle.std.specs.Prelude.{◌≡◌, ◌<◌, ◌≤◌, ◌^◌, length, IfOk};
ghost use Rattle.octets_core.specs.Reading.{value_of};
ghost use Rattle.store_core.specs.StoreLayout.{store as store_layout};
ghost use Rattle.view_core.specs.Checking.{ReadsStore, noted_store};
ghost use Rattle.view_core.specs.Scanning.{end_of};

use crate::scan::{ReadPart, newest_in};
use octets_core::{Field, LayoutFault, Why};
use store_core::StoreFault;

/// What is known of a store that was gone through.
#[derive(Clone, Copy, Debug, PartialEq, Eq)]
pub struct StoreNote {
    /// How many parts it has.
    pub parts: u8,
    /// The epoch of the newest one.
    pub newest_epoch: u64,
}

/// The newest part of the store that the bytes are, behind how many parts there are.
pub(crate) fn newest_of_store(bytes: &[u8]) -> Result<(u8, ReadPart), StoreFault>
    requires { length bytes.now < 2 ^ 32 }
    ensures store { ReadsStore bytes.now result }
    ensures within { IfOk result (λ x. end_of x.1 ≤ length bytes.now) }
{
    let (parts, newest) = newest_in(bytes)?;
    let end = newest.at + newest.note.length as usize;
    if end < bytes.len() {
        let (field, why) = (Field::End, Why::Value);
        let at = end as u64;
        return Err(StoreFault::Layout(LayoutFault { at, field, why }));
    }
    Ok((parts, newest))
}

/// What is known of the store that the bytes are. An `Err` is the first fault: of the layout, or of a part that the
/// parts before it don't take.
pub fn check_store(bytes: &[u8]) -> Result<StoreNote, StoreFault>
    requires { length bytes.now < 2 ^ 32 }
    ensures { result ≡ noted_store (value_of (store_layout bytes.now 0)) }
{
    match newest_of_store(bytes) {
        Ok((parts, newest)) => Ok(StoreNote {
            parts,
            newest_epoch: newest.note.epoch,
        }),
        Err(fault) => Err(fault),
    }
}
