//! What stands before the entries of a job.

ghost use Rattle.std.specs.Prelude.{◌≡◌, ◌+◌, ◌≤◌, ◌<◌, ◌++◌, length, IfOk, OnOk};
ghost use Rattle.ident_core.specs.declared.bounds.TheConstants.{MAX_SAMPLE};
ghost use Rattle.job_core.specs.JobText.{range_record, crl_record};
ghost use Rattle.sample_core.specs.Sample.{range_of, crl};
ghost use Rattle.sample_core.specs.Parts.{head_front, head_text};

use crate::crl::crl_bytes;
use crate::digests::Keys;
use crate::entry::MOMENT;
use octets_core::{NoMemory, put_bytes, put_u8, put_u32, put_u64};
use std::alloc::Global;

fn put_range(out: &mut Vec<u8>, keys: &Keys, count: u32) -> Result<(), NoMemory>
    requires { 1 ≤ count }
    ensures { OnOk result (out.new.items ≡ out.old.items ++ range_record (range_of keys.now count)) }
{
    put_u8(out, 1)?;
    put_bytes(out, keys.log().bytes())?;
    put_u64(out, MOMENT)?;
    put_u64(out, MOMENT + count as u64 - 1)
}

fn put_crl(
    alloc: Global,
    out: &mut Vec<u8>,
    keys: &Keys,
    count: u32,
    issuer: u8,
) -> Result<(), NoMemory>
    requires { (count ≤ MAX_SAMPLE) × (issuer < 4) }
    ensures { OnOk result (out.new.items ≡ out.old.items ++ crl_record (crl keys.now count issuer)) }
{
    let bytes = crl_bytes(alloc, keys.number(), count, issuer)?;
    put_u8(out, 2)?;
    put_bytes(out, keys.issuer(issuer).bytes())?;
    put_u32(out, bytes.len() as u32)?;
    put_bytes(out, bytes.as_slice())
}

#[tactic(auto, unfolding(crate::specs::Parts::head_front))]
fn front_text(alloc: Global, keys: &Keys, count: u32) -> Result<Vec<u8>, NoMemory>
    requires { 1 ≤ count }
    ensures { IfOk result (λ v. v.items ≡ head_front keys.now count) }
{
    let mut out = Vec::new(alloc);
    put_bytes(&mut out, b"CLUBJOB1")?;
    put_u64(&mut out, 1)?;
    put_u64(&mut out, MOMENT)?;
    put_range(&mut out, keys, count)?;
    Ok(out)
}

/// All that stands before the entries.
#[tactic(auto, unfolding(crate::specs::Parts::head_text))]
pub fn make_head(alloc: Global, keys: &Keys, count: u32) -> Result<Vec<u8>, NoMemory>
    requires { (1 ≤ count) × (count ≤ MAX_SAMPLE) }
    ensures { IfOk result (λ v. v.items ≡ head_text keys.now count) }
{
    let mut out = front_text(alloc, keys, count)?;
    put_crl(alloc, &mut out, keys, count, 0)?;
    put_crl(alloc, &mut out, keys, count, 1)?;
    put_crl(alloc, &mut out, keys, count, 2)?;
    put_crl(alloc, &mut out, keys, count, 3)?;
    Ok(out)
}
