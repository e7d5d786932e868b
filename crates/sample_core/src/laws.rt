//! What follows for every job of the generator, with no call.

ghost use Rattle.std.specs.Prelude.{◌≡◌, ◌≤◌, ◌<◌, ℕ, Ok, IsOk, All};
ghost use Rattle.ident_core.specs.declared.bounds.TheConstants.{MAX_SAMPLE};
ghost use Rattle.crl_core.specs.Outcome.{outcome};
ghost use Rattle.job_core.specs.JobText.{FitsJob};
ghost use Rattle.job_core.specs.JobMeaning.{meaning_of, kept_in, reading_of, job_of};
ghost use Rattle.job_core.specs.Fitting.{IsWithinLimits};
ghost use Rattle.sample_core.specs.Sample.{crl, sample_contents, sample_text, sample_revoked};
ghost use Rattle.sample_core.specs.Accepted.{crl_fields};

use job_core::{Limits, a_job_is_its_text};

/// Each job of the generator fits its fields and keeps the published limits on its records, so its text is read as what
/// it holds means.
pub fn samples_are_jobs()
    ensures fits { (number count : ℕ) → 1 ≤ count → count ≤ MAX_SAMPLE → FitsJob Limits.PUBLISHED (sample_contents number count) }
    ensures read { (number count : ℕ) → 1 ≤ count → count ≤ MAX_SAMPLE
        → job_of Limits.PUBLISHED (sample_text number count)
        ≡ reading_of Limits.PUBLISHED (sample_contents number count) }
{
    a_job_is_its_text();
}

/// The text of each job of the generator is read as a job: its CRLs are accepted with all that they list, and it is
/// within the published limits.
pub fn samples_are_accepted()
    // Each CRL comes to its date, no next one, and the serials of the entries that it lists, in their order.
    ensures crls { (number count j : ℕ) → count ≤ MAX_SAMPLE → outcome (crl number count j).bytes ≡ Ok (crl_fields number count j) }
    // All together they bring as many serials as `SampleJob::revoked` answers.
    ensures serials { (number count : ℕ) → count ≤ MAX_SAMPLE
        → kept_in (meaning_of (sample_contents number count)).crls ≡ sample_revoked count }
    ensures read { (number count : ℕ) → 1 ≤ count → count ≤ MAX_SAMPLE
        → job_of Limits.PUBLISHED (sample_text number count) ≡ Ok (meaning_of (sample_contents number count)) }
    ensures accepted { (number count : ℕ) → count ≤ MAX_SAMPLE
        → All (λ c. IsOk c.outcome) (meaning_of (sample_contents number count)).crls }
    ensures within { (number count : ℕ) → count ≤ MAX_SAMPLE → IsWithinLimits Limits.PUBLISHED (meaning_of (sample_contents number count)) }
{
    samples_are_jobs();
}
