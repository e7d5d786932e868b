//! Cuts of what jobs hold as it stands, and pieces that are put together.

ghost use Rattle.std.specs.Prelude.{◌≡◌, ◌<◌, ◌≤◌, ◌++◌, ℕ, List, All, map, length, get_or, Ok};
ghost use Rattle.gather_core.specs.Raw.{raw_job, piece_limits};
ghost use Rattle.job_core.specs.declared.bounds.Limits.{Limits};
ghost use Rattle.job_core.specs.declared.bounds.TheConstants.Limits.{PUBLISHED};
ghost use Rattle.job_core.specs.JobFields.{JobFields};
ghost use Rattle.job_core.specs.JobText.{JobContents, FitsJob, spelling};
ghost use Rattle.job_core.specs.JobMeaning.{meaning_of, reading_of, IsJob, job_of};
ghost use Rattle.place_core.specs.Cuts.{Cut};
ghost use Rattle.piece_core.specs.Cuts.{cut_contents};
ghost use Rattle.cut_core.specs.Cutting.{cut_job};
ghost use Rattle.cut_core.specs.Texts.{IsMerged};

/// What jobs hold as it stands is cut to what the jobs mean, cut (`meaning`). Cut pieces, put together behind a cut
/// head, are what the whole ones are behind the whole head, cut (`merged`). More pieces behind what was put
/// together are all of them behind the head, in order (`more`). No piece is of another epoch (`epochs`).
pub fn texts_are_cut()
    ensures meaning { (cut : Cut) (j : JobContents) → meaning_of (cut_contents cut j) ≡ cut_job cut (meaning_of j) }
    ensures merged { (cut : Cut) (head : JobContents) (pieces : List JobContents) (job : JobContents)
        → IsMerged head pieces job
        → IsMerged (cut_contents cut head) (map (cut_contents cut) pieces) (cut_contents cut job) }
    ensures more { (head : JobContents) (pieces more : List JobContents) (job whole : JobContents)
        → IsMerged head pieces job → IsMerged job more whole → IsMerged head (pieces ++ more) whole }
    ensures epochs { (head : JobContents) (pieces : List JobContents) (job : JobContents) → IsMerged head pieces job
        → All (λ p. p.epoch ≡ job.epoch) pieces }
{}

/// The bytes of a raw job are its text, within the limits (`text`). The text of what is cut of it is the job that it is
/// read as, cut (`cut`). What is put together of a head and pieces is read as its meaning, which may have too many
/// serials (`merged`).
pub fn texts_are_read()
    ensures text { (limits : Limits) (bytes : List ℕ) (j : JobContents) → ((i : ℕ) → get_or bytes i 0 < 256)
        → raw_job limits bytes ≡ Ok j → (bytes ≡ spelling j) × FitsJob limits j }
    ensures cut { (cut : Cut) (limits : Limits) (bytes : List ℕ) (j : JobContents) (job : JobFields)
        → ((i : ℕ) → get_or bytes i 0 < 256) → raw_job limits bytes ≡ Ok j → job_of limits bytes ≡ Ok job
        → IsJob limits (spelling (cut_contents cut j)) (cut_job cut job) }
    ensures merged { (head : JobContents) (pieces : List JobContents) (job : JobContents) → IsMerged head pieces job
        → FitsJob PUBLISHED head → All (FitsJob piece_limits) pieces → length job.entries ≤ PUBLISHED.entries
        → job_of PUBLISHED (spelling job) ≡ reading_of PUBLISHED job }
{}
