//! Stores as bytes.

ghost use Rattle.std.specs.Prelude.{◌≡◌, ◌++◌, IfOk, OnOk, All, flat_map};
ghost use Rattle.part_text.specs.Fitting.{Fits};
ghost use Rattle.part_text.specs.PartText.{spelling};
ghost use Rattle.store_core.specs.StoreLayout.{store_text};

use crate::store::Store;
use octets_core::{NoMemory, put_bytes, put_u8};
use part_codec::{Sealed, encode_part};
use std::alloc::Global;

fn put_part(alloc: Global, out: &mut Vec<u8>, part: &Sealed) -> Result<(), NoMemory>
    ensures text { OnOk result (out.new.items ≡ out.old.items ++ spelling part.now) }
    ensures fits { OnOk result (Fits part.now) }
{
    let text = encode_part(alloc, part)?;
    put_bytes(out, &text)
}

fn put_parts(alloc: Global, out: &mut Vec<u8>, parts: &[Sealed]) -> Result<(), NoMemory>
    ensures text { OnOk result (out.new.items ≡ out.old.items ++ flat_map spelling parts.now) }
    ensures fits { OnOk result (All Fits parts.now) }
{
    for part in parts {
        put_part(alloc, out, part)?;
    }
    Ok(())
}

/// The text of the store. A store that was encoded fits, so decoding its text gives it again.
#[tactic(auto, unfolding(crate::specs::StoreLayout::store_text))]
pub fn encode_store(alloc: Global, store: &Store) -> Result<Vec<u8>, NoMemory>
    ensures text { IfOk result (λ text. text.items ≡ store_text store.now) }
    ensures fits { OnOk result (All Fits store.now) }
{
    let parts = store.parts();
    let mut out = Vec::new(alloc);
    put_bytes(&mut out, b"CLUBSTOR")?;
    put_u8(&mut out, 1)?;
    put_u8(&mut out, parts.len() as u8)?;
    put_parts(alloc, &mut out, parts)?;
    Ok(out)
}
