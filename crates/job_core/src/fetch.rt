//! The fields of a job, read off a feed.

ghost use Rattle.std.specs.Prelude.{◌≡◌, ◌+◌, ◌-◌, ◌^◌, ◌<◌, ◌≤◌, ℕ, List, length, OnOk, IfOk, IfErr};
ghost use Rattle.std.specs.Int.{w32, w64};
ghost use Rattle.octets_core.specs.Linked.{is_after as is_key_after};
ghost use Rattle.octets_core.specs.Reading.{number, octets, length_of_three, key, any_key, magic};
ghost use Rattle.outside_core.specs.Standing.{place_of, StandsIn};
ghost use Rattle.job_core.specs.JobLayout.{fielded};
ghost use Rattle.outside_core.specs.Pulling.{Pulled};
ghost use Rattle.job_core.specs.Pulling.{IsOfBytes, Blames, Fetches, SeesMore};

use crate::fault::JobFault;
use octets_core::{Field, Key32, LayoutFault, Why, is_after};
use outside_core::{Depot, Failed, Feed, pull};

/// The fault of a field whose first byte has this offset.
pub fn wrong(at: u64, field: Field, why: Why) -> JobFault
    ensures { result ≡ JobFault.Layout (record { at = at; field = field; why = why }) }
{
    JobFault::Layout(LayoutFault { at, field, why })
}

/// Fills the buffer with the bytes of a field.
pub fn fetch<D: Depot>(feed: &mut Feed<'_, D>, field: Field, out: &mut [u8]) -> Result<(), JobFault>
    ensures len { length out.new ≡ length out.old }
    ensures place { OnOk result (place_of feed.new ≡ place_of feed.old + length out.old) }
    ensures near { place_of feed.new ≤ place_of feed.old + length out.old }
    ensures exact { Fetches D.Depot (λ u. out.new) (fielded (octets field (length out.old))) feed.old feed.new result }
{
    let at = feed.at();
    match pull(feed, out) {
        Ok(true) => Ok(()),
        Ok(false) => Err(wrong(at, field, Why::Short)),
        Err(Failed) => Err(JobFault::ReadFault),
    }
}

/// So many bytes, in place of those that the vector holds. Its memory is used again.
pub fn fetch_octets<D: Depot>(
    feed: &mut Feed<'_, D>,
    field: Field,
    width: u32,
    out: &mut Vec<u8>,
) -> Result<(), JobFault>
    ensures exact { Fetches D.Depot (λ u. out.new.items) (fielded (octets field width)) feed.old feed.new result }
    ensures near { place_of feed.new ≤ place_of feed.old + width }
{
    out.resize(width as usize, 0)?;
    fetch(feed, field, out)?;
    Ok(())
}

/// A key of 32 bytes.
pub fn fetch_key<D: Depot>(feed: &mut Feed<'_, D>, field: Field) -> Result<Key32, JobFault>
    ensures exact { Fetches D.Depot (λ k. k) (fielded (key field any_key)) feed.old feed.new result }
    ensures near { place_of feed.new ≤ place_of feed.old + 32 }
{
    let mut out = [0u8; 32];
    fetch(feed, field, &mut out)?;
    Ok(Key32::new(out))
}

/// A number of three bytes.
pub fn fetch_u24<D: Depot>(feed: &mut Feed<'_, D>, field: Field) -> Result<u32, JobFault>
    ensures exact { Fetches D.Depot (λ n. n) (fielded (length_of_three field)) feed.old feed.new result }
    ensures high { IfOk result (λ n. n < 2 ^ 24) }
    ensures near { place_of feed.new ≤ place_of feed.old + 3 }
{
    let mut out = [0u8; 3];
    fetch(feed, field, &mut out)?;
    Ok(u32::from_be_bytes([0, out[0], out[1], out[2]]))
}

/// A number of four bytes, up to `high`.
pub fn fetch_u32<D: Depot>(feed: &mut Feed<'_, D>, field: Field, high: u32) -> Result<u32, JobFault>
    ensures exact { Fetches D.Depot (λ n. n) (fielded (number field w32 0 high)) feed.old feed.new result }
    ensures high { IfOk result (λ n. n ≤ high) }
    ensures near { place_of feed.new ≤ place_of feed.old + 4 }
{
    let at = feed.at();
    let mut out = [0u8; 4];
    fetch(feed, field, &mut out)?;
    let n = u32::from_be_bytes(out);
    if n > high {
        return Err(wrong(at, field, Why::Value));
    }
    Ok(n)
}

/// A number of eight bytes, from `low` on.
pub fn fetch_u64<D: Depot>(feed: &mut Feed<'_, D>, field: Field, low: u64) -> Result<u64, JobFault>
    ensures exact { Fetches D.Depot (λ n. n) (fielded (number field w64 low (2 ^ 64 - 1))) feed.old feed.new result }
    ensures near { place_of feed.new ≤ place_of feed.old + 8 }
{
    let at = feed.at();
    let mut out = [0u8; 8];
    fetch(feed, field, &mut out)?;
    let n = u64::from_be_bytes(out);
    if n < low {
        return Err(wrong(at, field, Why::Value));
    }
    Ok(n)
}

/// The eight bytes that a layout begins with.
pub fn fetch_magic<D: Depot>(
    feed: &mut Feed<'_, D>,
    field: Field,
    text: &[u8; 8],
) -> Result<(), JobFault>
    ensures exact { Fetches D.Depot (λ u. text.now) (fielded (magic field text.now)) feed.old feed.new result }
    ensures near { place_of feed.new ≤ place_of feed.old + 8 }
{
    let at = feed.at();
    let mut out = [0u8; 8];
    fetch(feed, field, &mut out)?;
    if text.as_slice() != out.as_slice() {
        return Err(wrong(at, field, Why::Value));
    }
    Ok(())
}

/// A key above the one before it, if there is one.
pub fn fetch_key_after<D: Depot>(
    feed: &mut Feed<'_, D>,
    field: Field,
    previous: Option<Key32>,
) -> Result<Key32, JobFault>
    ensures exact { Fetches D.Depot (λ k. k) (fielded (key field (is_key_after previous))) feed.old feed.new result }
    ensures near { place_of feed.new ≤ place_of feed.old + 32 }
{
    let at = feed.at();
    let mut out = [0u8; 32];
    fetch(feed, field, &mut out)?;
    let key = Key32::new(out);
    if !is_after(previous, &key) {
        return Err(wrong(at, field, Why::Value));
    }
    Ok(key)
}

/// The end of a whole file: no byte is left.
pub fn fetch_end<D: Depot>(feed: &mut Feed<'_, D>) -> Result<(), JobFault>
    ensures pulled { Pulled D.Depot feed.old feed.new }
    ensures blames { Blames D.Depot feed.old feed.new result }
    ensures place { place_of feed.new ≡ place_of feed.old }
    ensures ended { OnOk result ((file : List ℕ) → StandsIn D.Depot feed.old file → length file ≤ place_of feed.old) }
    ensures more { IfErr result (λ e. IsOfBytes e → SeesMore D.Depot feed.old e) }
{
    match feed.refill() {
        Err(Failed) => Err(JobFault::ReadFault),
        Ok(()) if feed.buffered().is_empty() => Ok(()),
        Ok(()) => Err(wrong(feed.at(), Field::End, Why::Value)),
    }
}
