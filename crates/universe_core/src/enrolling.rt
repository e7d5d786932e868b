ghost use Rattle.std.specs.Prelude.{◌≡◌, IfOk, filter, not};
ghost use Rattle.std.specs.List.Sorted.{IsStrictlySortedBy};
ghost use Rattle.ident_core.specs.Order.{octets_cmp};
ghost use Rattle.ident_core.specs.Sets.{has_key};
ghost use Rattle.universe_core.specs.Jobs.{facts_of_job, is_stale, enrolled as enrolled_of, is_enrolled as is_enrolled_by};
ghost use Rattle.universe_core.specs.Enrolling.{facts_of_crl, issuer_if, stale_issuer_if, is_of, is_stale_of};

use ident_core::{holds_key, sort_keys_once};
use job_core::{Job, JobCrl};
use octets_core::Key32;
use std::alloc::{AllocError, Global};

/// Whether a CRL is out of date at a moment, in milliseconds. Its nextUpdate is in seconds.
fn is_out_of_date(moment: u64, next_update: Option<i64>) -> bool
    ensures { result ≡ is_stale moment next_update }
{
    match next_update {
        Some(seconds) => 1000 * i128::from(seconds) < i128::from(moment),
        None => false,
    }
}

fn issuer_of(crl: &JobCrl) -> Option<Key32>
    ensures { result ≡ issuer_if (facts_of_crl crl.now) }
{
    match &crl.outcome {
        Ok(_) => Some(crl.issuer),
        Err(_) => None,
    }
}

/// The issuer of a CRL that is accepted and out of date.
fn stale_issuer_of(crl: &JobCrl, moment: u64) -> Option<Key32>
    ensures { result ≡ stale_issuer_if moment (facts_of_crl crl.now) }
{
    match &crl.outcome {
        Ok(list) => {
            if is_out_of_date(moment, list.next_update) {
                Some(crl.issuer)
            } else {
                None
            }
        }
        Err(_) => None,
    }
}

/// The keys that aren't among others.
fn without(alloc: Global, keys: &[Key32], others: &[Key32]) -> Result<Vec<Key32>, AllocError>
    requires { IsStrictlySortedBy octets_cmp others.now }
    ensures { IfOk result (λ left. left.items ≡ filter (λ k. not (has_key others.now k)) keys.now) }
{
    let mut left = Vec::with_capacity(alloc, keys.len())?;
    for key in keys {
        if !holds_key(others, key) {
            left.push(*key)?;
        }
    }
    Ok(left)
}

/// The issuers with a CRL, none of whose CRLs is out of date, ascending.
pub(crate) fn enrolled(alloc: Global, job: &Job) -> Result<Vec<Key32>, AllocError>
    ensures { IfOk result (λ keys. keys.items ≡ enrolled_of (facts_of_job job.now)) }
{
    let mut stale = job
        .crls
        .iter()
        .filter_map(|c| stale_issuer_of(c, job.moment))
        .collect::<Vec<Key32>>(alloc)?;
    sort_keys_once(&mut stale);
    let mut keys = job
        .crls
        .iter()
        .filter_map(|c| issuer_of(c))
        .collect::<Vec<Key32>>(alloc)?;
    sort_keys_once(&mut keys);
    let left = without(alloc, &keys, &stale)?;
    Ok(left)
}

/// Whether a CRL that is accepted is the issuer's.
fn is_crl_of(crl: &JobCrl, issuer: &Key32) -> bool
    ensures { result ≡ is_of issuer.now (facts_of_crl crl.now) }
{
    match &crl.outcome {
        Ok(_) => *issuer == crl.issuer,
        Err(_) => false,
    }
}

/// Whether a CRL that is accepted is the issuer's, and out of date.
fn is_stale_crl_of(crl: &JobCrl, issuer: &Key32, moment: u64) -> bool
    ensures { result ≡ is_stale_of moment issuer.now (facts_of_crl crl.now) }
{
    match &crl.outcome {
        Ok(list) => *issuer == crl.issuer && is_out_of_date(moment, list.next_update),
        Err(_) => false,
    }
}

/// Whether the job enrolls the issuer: it has a CRL of it that is accepted, and none of them is out of date. It takes
/// no memory, and looks at each CRL of the job.
pub fn is_enrolled(job: &Job, issuer: &Key32) -> bool
    ensures { result ≡ is_enrolled_by (facts_of_job job.now) issuer.now }
{
    let has_one = job.crls.iter().any(|c| is_crl_of(c, issuer));
    has_one
        && !job
            .crls
            .iter()
            .any(|c| is_stale_crl_of(c, issuer, job.moment))
}
