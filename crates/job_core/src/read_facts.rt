//! A law of the definitions, apart from all code: what holds of each job that bytes are read as.

ghost use Rattle.std.specs.Prelude.{◌≡◌, ◌≤◌, ◌<◌, ℕ, List, get_or, Ok};
ghost use Rattle.ident_core.specs.declared.bounds.TheConstants.{MAX_RANGES};
ghost use Rattle.job_core.specs.declared.bounds.Limits.{Limits};
ghost use Rattle.job_core.specs.JobFields.{JobFields};
ghost use Rattle.job_core.specs.Fitting.{FitsFields, IsWithinLimits};
ghost use Rattle.job_core.specs.JobMeaning.{job_of};

/// A job that bytes are read as fits its fields and keeps the limits, whatever reads them.
pub fn jobs_that_are_read_fit()
    ensures fits { (limits : Limits) (bytes : List ℕ) (job : JobFields) → ((i : ℕ) → get_or bytes i 0 < 256)
        → limits.ranges ≤ MAX_RANGES → job_of limits bytes ≡ Ok job → FitsFields job }
    ensures within { (limits : Limits) (bytes : List ℕ) (job : JobFields) → ((i : ℕ) → get_or bytes i 0 < 256)
        → job_of limits bytes ≡ Ok job → IsWithinLimits limits job }
{}
