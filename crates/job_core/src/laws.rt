//! What follows for every job, with no call.

ghost use Rattle.std.specs.Prelude.{◌≡◌, ◌+◌, ◌<◌, ◌≤◌, ◌++◌, ◌↔◌, ℕ, List, length, map, flat_map, All, Result, Err};
ghost use Rattle.job_core.specs.declared.bounds.Limits.{Limits};
ghost use Rattle.job_core.specs.JobFields.{JobFields};
ghost use Rattle.job_core.specs.declared.fault.JobFault.{JobFault};
ghost use Rattle.job_core.specs.JobLayout.{Item, HeldSoFar, next_item, records_within, records, serials_of};
ghost use Rattle.job_core.specs.JobText.{JobContents, FitsJob, spelling, crls_in, record_text, Pass, held_behind, serials_behind, behind};
ghost use Rattle.job_core.specs.JobMeaning.{crl_meaning, kept_in, reading_of, IsJobOf, job_of};

/// Bytes are the text of what one job holds, and mean what it says.
pub fn a_job_is_its_text()
    // The text of what a job holds is read as its meaning, or its CRLs bring too many serials.
    ensures read { (limits : Limits) (j : JobContents) → FitsJob limits j → job_of limits (spelling j) ≡ reading_of limits j }
    // What bytes are read as is what they are, and nothing else.
    ensures found { (limits : Limits) (bytes : List ℕ) (r : Result JobFields JobFault) → All (λ b. b < 256) bytes
        → job_of limits bytes ≡ r ↔ IsJobOf limits bytes r }
{}

/// The definition of a job's records, over texts.
pub fn records_are_texts()
    // Behind records that pass, what is left is read from what is held behind them.
    ensures passed { (brings : List ℕ → ℕ) (limits : Limits) (h : HeldSoFar) (serials : ℕ) (xs : List Item) (before rest : List ℕ)
        → Pass brings limits h serials xs
        → records brings limits h serials (before ++ (flat_map record_text xs ++ rest)) (length before)
        ≡ behind xs (records brings limits (held_behind h xs) (serials_behind brings serials xs)
        (before ++ (flat_map record_text xs ++ rest)) (length before + length (flat_map record_text xs))) }
    // A fault is that of the next record.
    ensures fault { (brings : List ℕ → ℕ) (limits : Limits) (h : HeldSoFar) (serials : ℕ) (bytes : List ℕ) (at : ℕ) (e : JobFault)
        → next_item limits h bytes at ≡ Err e → records brings limits h serials bytes at ≡ Err e }
    // As many steps as bytes are left are enough.
    ensures steps { (brings : List ℕ → ℕ) (n : ℕ) (limits : Limits) (h : HeldSoFar) (serials : ℕ) (bytes : List ℕ) (at : ℕ)
        → length bytes ≤ at + n → records_within brings n limits h serials bytes at ≡ records brings limits h serials bytes at }
    // The count of serials is that of the CRLs that were read.
    ensures serials { (xs : List Item) → serials_behind serials_of 0 xs ≡ kept_in (map crl_meaning (crls_in xs)) }
{}
