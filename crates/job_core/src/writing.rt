//! Jobs as bytes.

ghost use Rattle.std.specs.Prelude.{◌≡◌, ◌++◌, ◌↔◌, IsTrue, IfOk, OnOk, flat_map, All};
ghost use Rattle.ident_core.specs.RangeText.{RangeFits};
ghost use Rattle.job_core.specs.JobText.{range_record, crl_record, entry_record, spelling, crl_held, entry_held};
ghost use Rattle.job_core.specs.JobText.{contents_of, FitsCrl, FitsEntry, FitsJob, CrlFits, EntryFits, JobFits};
ghost use Rattle.job_core.specs.JobMeaning.{reading_of, job_of};

use crate::bounds::Limits;
use crate::raw::{RawCrl, RawEntry, RawJob};
use crate::records::MAX_CRL;
use ident_core::{Range, put_range, ranges_fit};
use octets_core::{NoMemory, put_bytes, put_u8, put_u24, put_u32, put_u64};
use std::alloc::Global;

/// The lengths of leaves and extra data are below it.
const LENGTHS: usize = 16_777_216;

fn crls_fit(crls: &[RawCrl]) -> bool
    ensures { IsTrue result ↔ All CrlFits crls.now }
{
    crls.iter().all(|c| c.bytes.len() <= MAX_CRL as usize)
}

fn entries_fit(entries: &[RawEntry]) -> bool
    ensures { IsTrue result ↔ All EntryFits entries.now }
{
    entries
        .iter()
        .all(|e| e.leaf.len() < LENGTHS && e.extra.len() < LENGTHS)
}

/// Whether the job can be written: its ranges fit a part, CRLs and entries keep the published limits, and each length
/// fits its field. For a command that makes jobs from the files of CRLs; none does yet.
pub fn job_fits(job: &RawJob) -> bool
    ensures { IsTrue result ↔ JobFits job.now }
{
    let limits = Limits::PUBLISHED;
    if job.crls.len() > limits.crls as usize || job.entries.len() > limits.entries as usize {
        return false;
    }
    if !ranges_fit(job.ranges.as_slice()) {
        return false;
    }
    if !crls_fit(job.crls.as_slice()) {
        return false;
    }
    entries_fit(job.entries.as_slice())
}

fn put_range_record(out: &mut Vec<u8>, range: &Range) -> Result<(), NoMemory>
    ensures text { OnOk result (out.new.items ≡ out.old.items ++ range_record range.now) }
    ensures fits { OnOk result (RangeFits range.now) }
{
    put_u8(out, 1)?;
    put_range(out, range)?;
    Ok(())
}

fn put_ranges(out: &mut Vec<u8>, ranges: &[Range]) -> Result<(), NoMemory>
    ensures text { OnOk result (out.new.items ≡ out.old.items ++ flat_map range_record ranges.now) }
    ensures fits { OnOk result (All RangeFits ranges.now) }
{
    for range in ranges {
        put_range_record(out, range)?;
    }
    Ok(())
}

fn put_crl(out: &mut Vec<u8>, crl: &RawCrl) -> Result<(), NoMemory>
    requires { CrlFits crl.now }
    ensures text { OnOk result (out.new.items ≡ out.old.items ++ crl_record (crl_held crl.now)) }
    ensures fits { OnOk result (FitsCrl (crl_held crl.now)) }
{
    put_u8(out, 2)?;
    put_bytes(out, crl.issuer.bytes())?;
    put_u32(out, crl.bytes.len() as u32)?;
    put_bytes(out, crl.bytes.as_slice())?;
    Ok(())
}

fn put_crls(out: &mut Vec<u8>, crls: &[RawCrl]) -> Result<(), NoMemory>
    requires { All CrlFits crls.now }
    ensures text { OnOk result (out.new.items ≡ out.old.items ++ flat_map (λ x. crl_record (crl_held x)) crls.now) }
    ensures fits { OnOk result (All (λ x. FitsCrl (crl_held x)) crls.now) }
{
    for crl in crls {
        put_crl(out, crl)?;
    }
    Ok(())
}

fn put_entry(out: &mut Vec<u8>, entry: &RawEntry) -> Result<(), NoMemory>
    requires { EntryFits entry.now }
    ensures text { OnOk result (out.new.items ≡ out.old.items ++ entry_record (entry_held entry.now)) }
    ensures fits { OnOk result (FitsEntry (entry_held entry.now)) }
{
    put_u8(out, 3)?;
    put_bytes(out, entry.log.bytes())?;
    put_u24(out, entry.leaf.len() as u32)?;
    put_bytes(out, entry.leaf.as_slice())?;
    put_u24(out, entry.extra.len() as u32)?;
    put_bytes(out, entry.extra.as_slice())?;
    Ok(())
}

fn put_entries(out: &mut Vec<u8>, entries: &[RawEntry]) -> Result<(), NoMemory>
    requires { All EntryFits entries.now }
    ensures text { OnOk result (out.new.items ≡ out.old.items ++ flat_map (λ x. entry_record (entry_held x)) entries.now) }
    ensures fits { OnOk result (All (λ x. FitsEntry (entry_held x)) entries.now) }
{
    for entry in entries {
        put_entry(out, entry)?;
    }
    Ok(())
}

#[tactic(auto, unfolding(crate::specs::JobText::spelling))]
fn bytes_of(alloc: Global, job: &RawJob) -> Result<Vec<u8>, NoMemory>
    requires { JobFits job.now }
    ensures text { IfOk result (λ out. out.items ≡ spelling (contents_of job.now)) }
    ensures fits { OnOk result (FitsJob Limits.PUBLISHED (contents_of job.now)) }
{
    let mut out = Vec::new(alloc);
    put_bytes(&mut out, b"CLUBJOB1")?;
    put_u64(&mut out, job.epoch)?;
    put_u64(&mut out, job.moment)?;
    put_ranges(&mut out, job.ranges.as_slice())?;
    put_crls(&mut out, job.crls.as_slice())?;
    put_entries(&mut out, job.entries.as_slice())?;
    put_u8(&mut out, 0)?;
    Ok(out)
}

/// The bytes of the job, whose records are the raw job's in their order. For a command that makes jobs from the files
/// of CRLs; none does yet.
pub fn write_job(alloc: Global, job: &RawJob) -> Result<Vec<u8>, NoMemory>
    requires { JobFits job.now }
    ensures text { IfOk result (λ out. out.items ≡ spelling (contents_of job.now)) }
    // They are read as what the raw job means; or, where its CRLs bring too many serials, that is the answer.
    ensures read_back { IfOk result (λ out. job_of Limits.PUBLISHED out.items ≡ reading_of Limits.PUBLISHED (contents_of job.now)) }
{
    bytes_of(alloc, job)
}
