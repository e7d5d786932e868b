//! The texts of pieces, so far as they are put together.

ghost use Rattle.std.specs.Prelude.{◌≡◌, ◌<◌, ℕ, length, IfOk, IfErr, IfSome, OnOk};
ghost use Rattle.piece_core.specs.Texts.{text_at, IsLonger};

use job_core::JobFault;
use place_core::PlaceCount;
use std::alloc::Global;

/// A text for each place, which begins so.
pub fn begun_texts(alloc: Global, count: PlaceCount, begin: &[u8]) -> Result<Vec<Vec<u8>>, JobFault>
    ensures count { IfOk result (λ texts. length texts.items ≡ count) }
    ensures each { IfOk result (λ texts. (p : ℕ) → p < count → text_at texts.items p ≡ begin.now) }
    ensures wanted { IfErr result (λ e. e ≡ JobFault.NoMemory) }
{
    let places = count.get() as usize;
    let mut texts = Vec::with_capacity(alloc, places)?;
    while texts.len() < places {
        texts.push(begin.to_vec(alloc)?)?;
    }
    Ok(texts)
}

/// Puts more behind the text of one place.
fn put_at(texts: &mut [Vec<u8>], place: usize, more: &[u8]) -> Result<(), JobFault>
    requires { place < length texts.old }
    ensures longer { OnOk result (IsLonger (Some place) more.now texts.old texts.new) }
    ensures wanted { IfErr result (λ e. e ≡ JobFault.NoMemory) }
{
    texts[place].extend_from_slice(more)?;
    Ok(())
}

/// Puts more behind the text of each place.
fn put_at_each(texts: &mut [Vec<u8>], more: &[u8]) -> Result<(), JobFault>
    ensures longer { OnOk result (IsLonger None more.now texts.old texts.new) }
    ensures wanted { IfErr result (λ e. e ≡ JobFault.NoMemory) }
{
    let mut place = 0;
    while place < texts.len() {
        put_at(texts, place, more)?;
        place += 1;
    }
    Ok(())
}

/// Puts more behind the text of this place; or of each, where none is given.
pub fn put(texts: &mut [Vec<u8>], place: Option<u32>, more: &[u8]) -> Result<(), JobFault>
    requires { IfSome place (λ p. p < length texts.old) }
    ensures longer { OnOk result (IsLonger place more.now texts.old texts.new) }
    ensures wanted { IfErr result (λ e. e ≡ JobFault.NoMemory) }
{
    match place {
        Some(place) => put_at(texts, place as usize, more),
        None => put_at_each(texts, more),
    }
}
