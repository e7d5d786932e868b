//! What is left of cut jobs, whichever identities are kept.

ghost use Rattle.std.specs.Prelude.{◌≡◌, ◌<◌, ◌≤◌, [], ℕ, List, Some, All, IfSome, IsOk};
ghost use Rattle.std.specs.Prelude.{true, false, map, length};
ghost use Rattle.std.specs.List.{AllZip};
ghost use Rattle.ident_core.specs.declared.bounds.TheConstants.{MAX_PARTS};
ghost use Rattle.ident_core.specs.declared.identity.Identity.{Identity};
ghost use Rattle.ident_core.specs.Sets.{has, has_key};
ghost use Rattle.part_text.specs.SealedFields.{SealedFields};
ghost use Rattle.job_core.specs.declared.bounds.TheConstants.Limits.{PUBLISHED};
ghost use Rattle.job_core.specs.JobFields.{JobFields};
ghost use Rattle.job_core.specs.Fitting.{FitsPublishing, IsWithinLimits};
ghost use Rattle.universe_core.specs.Jobs.{Entry, JobFacts};
ghost use Rattle.universe_core.specs.Formats.{JobIn, facts_in};
ghost use Rattle.universe_core.specs.Dates.{until};
ghost use Rattle.universe_core.specs.History.{Release, past_of, releases, class_of, accepted_with};
ghost use Rattle.universe_core.specs.History.{accepted_by, seen, sightings, birth, is_listed};
ghost use Rattle.universe_core.specs.Ledgers.{last};
ghost use Rattle.history_core.specs.Bases.{releases_cut, base_at};
ghost use Rattle.history_core.specs.Truth.{truth};
ghost use Rattle.publication_core.specs.Building.{HaveBlocks};
ghost use Rattle.publication_core.specs.Histories.{Published, History, of_jobs, with_job, IsHistory, releases_of};
ghost use Rattle.publication_core.specs.Histories.{newest_of, groups_of, GoesOn, IsAdmissible};
ghost use Rattle.place_core.specs.Cuts.{Cut, is_kept, both, everything};
ghost use Rattle.cut_core.specs.Cutting.{cut_job, cut_in, cut_facts, IsCut};
ghost use Rattle.cut_core.specs.Courses.{Course, from_base, left, cut_course, course_of, HaveBlocksBehind};

/// What cut jobs leave is what the whole jobs leave, without what isn't kept, whichever that is, and however many
/// identities the whole jobs accept: of jobs from the first on (`jobs`), of a course (`courses`), and of a history
/// with parts that has a course's jobs, cut (`histories`). The base of what is cut is the base of the whole, cut
/// (`bases`), whichever of it the base keeps. A chain that isn't cut is begun anew, cut, by the base of what is kept
/// (`splits`); so what it leaves with the cut jobs is what the whole leaves, begun anew with all of it, and gone on with
/// the whole jobs (`begun`). What is cut is cut again (`again`), as its jobs and courses are (`again_jobs`,
/// `again_courses`).
pub fn cuts_leave_what_is_kept()
    ensures jobs { (cut : Cut) (trailer other : List Release → JobFacts → List ℕ) (jobs : List JobFacts)
        → AllZip (IsCut cut) (releases trailer [] jobs) (releases other [] (map (cut_facts cut) jobs)) }
    ensures courses { (cut : Cut) (c : Course) → AllZip (IsCut cut) (left c) (left (cut_course cut c)) }
    ensures histories { (cut : Cut) (c : Course) (h : History)
        → course_of h ≡ cut_course cut c → AllZip (IsCut cut) (left c) (releases_of h) }
    ensures bases { (cut : Cut) (moment : ℕ) (kept : Cut) (rs qs : List Release) (trailer other : List ℕ)
        → AllZip (IsCut cut) rs qs
        → IsCut cut (base_at moment (releases_cut kept rs) trailer)
        (base_at moment (releases_cut kept qs) other) }
    ensures splits { (cut : Cut) (moment : ℕ) (rs : List Release) (trailer other : List ℕ)
        → IsCut cut (base_at moment rs trailer) (base_at moment (releases_cut cut rs) other) }
    ensures begun { (cut : Cut) (c : Course) (moment : ℕ) (jobs : List JobIn) (h : History)
        → course_of h ≡ from_base c moment cut (map (cut_in cut) jobs)
        → AllZip (IsCut cut) (left (from_base c moment everything jobs)) (releases_of h) }
    ensures again { (a b : Cut) (r q s : Release) → IsCut a r q → IsCut b q s → IsCut (both a b) r s }
    ensures again_jobs { (a b : Cut) (job : JobFields) → cut_job b (cut_job a job) ≡ cut_job (both a b) job }
    ensures again_courses { (a b : Cut) (c : Course) → cut_course b (cut_course a c) ≡ cut_course (both a b) c }
{}

/// Releases that are cut know of a kept identity what the whole ones do: whether it is accepted, its birth, its
/// accepted sightings, its date, the last part that revokes it, whether it is listed, and the truth; and of each
/// release whether it has accepted, lists and revokes it (`each`). An entry of it has the same class behind them
/// (`class`). No other identity is accepted (`other`), and of the issuers those alone are enrolled that are taken
/// (`enrolled`, `unenrolled`).
pub fn cuts_know_what_is_kept()
    ensures accepted { (cut : Cut) (rs qs : List Release) (x : Identity) → AllZip (IsCut cut) rs qs
        → is_kept cut x ≡ true → has (accepted_by [] qs) x ≡ has (accepted_by [] rs) x }
    ensures birth { (cut : Cut) (rs qs : List Release) (x : Identity) → AllZip (IsCut cut) rs qs → is_kept cut x ≡ true
        → birth x qs ≡ birth x rs }
    ensures sightings { (cut : Cut) (rs qs : List Release) (x : Identity) → AllZip (IsCut cut) rs qs
        → is_kept cut x ≡ true → sightings x (seen qs) ≡ sightings x (seen rs) }
    ensures date { (cut : Cut) (rs qs : List Release) (x : Identity) → AllZip (IsCut cut) rs qs → is_kept cut x ≡ true
        → until x qs ≡ until x rs }
    ensures last { (cut : Cut) (rs qs : List Release) (x : Identity) → AllZip (IsCut cut) rs qs → is_kept cut x ≡ true
        → last x qs ≡ last x rs }
    ensures listed { (cut : Cut) (rs qs : List Release) (x : Identity) → AllZip (IsCut cut) rs qs → is_kept cut x ≡ true
        → is_listed qs x ≡ is_listed rs x }
    ensures truth { (cut : Cut) (rs qs : List Release) (x : Identity) → AllZip (IsCut cut) rs qs → is_kept cut x ≡ true
        → truth qs x ≡ truth rs x }
    ensures each { (cut : Cut) (r q : Release) (x : Identity) → IsCut cut r q → is_kept cut x ≡ true
        → (has q.accepted x ≡ has r.accepted x) × (q.lists x ≡ r.lists x)
        × (has q.revoked x ≡ has r.revoked x) }
    ensures class { (cut : Cut) (rs qs : List Release) (job : JobFacts) (e : Entry) → AllZip (IsCut cut) rs qs
        → is_kept cut e.id ≡ true
        → class_of (past_of qs) (cut_facts cut job) (Some e) ≡ class_of (past_of rs) job (Some e) }
    ensures enrolled { (cut : Cut) (r q : Release) (issuer : List ℕ) → IsCut cut r q → cut.takes issuer ≡ true
        → has_key q.issuers issuer ≡ has_key r.issuers issuer }
    ensures unenrolled { (cut : Cut) (r q : Release) (issuer : List ℕ) → IsCut cut r q → cut.takes issuer ≡ false
        → has_key q.issuers issuer ≡ false }
    ensures other { (cut : Cut) (rs qs : List Release) (x : Identity) → AllZip (IsCut cut) rs qs → is_kept cut x ≡ false
        → has (accepted_by [] qs) x ≡ false }
{}

/// A cut job may follow where the whole one may, if each of its groups has a block (`admitted`). It needs less: that
/// the whole one fits its fields, has accepted CRLs and goes on from what was before, that it keeps the limits itself,
/// and that there are few enough identities of those that are kept (`alone`).
pub fn cut_jobs_follow()
    ensures admitted { (cut : Cut) (c : Course) (j : JobIn) → IsAdmissible (left c) j
        → HaveBlocks j.format (groups_of (left (cut_course cut c)) (facts_in (cut_in cut j)))
        → IsAdmissible (left (cut_course cut c)) (cut_in cut j) }
    ensures alone { (cut : Cut) (rs qs : List Release) (j : JobIn) → AllZip (IsCut cut) rs qs → FitsPublishing j.job
        → All (λ c. IsOk c.outcome) j.job.crls → IfSome (newest_of rs) (GoesOn j.job) → length rs < MAX_PARTS
        → IsWithinLimits PUBLISHED (cut_job cut j.job)
        → length (accepted_with (past_of qs) (facts_in (cut_in cut j))) ≤ PUBLISHED.identities
        → HaveBlocks j.format (groups_of qs (facts_in (cut_in cut j))) → IsAdmissible qs (cut_in cut j) }
{}

/// Cut jobs have parts where the whole ones do, if each of their groups has a block. The jobs of a history, cut, are a
/// history with some parts (`jobs`). Behind a cut history with parts, which may begin with a base, a job that may
/// follow the whole one has a part, cut (`next`), and the two are cut alike with it (`course`).
pub fn cut_jobs_have_parts()
    ensures jobs { (cut : Cut) (ps : List Published) → IsHistory (of_jobs ps)
        → HaveBlocksBehind [] (map (cut_in cut) (map (λ p. p.job) ps))
        → (h : History) × IsHistory h × (course_of h ≡ cut_course cut (course_of (of_jobs ps))) }
    ensures next { (cut : Cut) (whole kept : History) (j : JobIn) → IsHistory whole → IsHistory kept
        → course_of kept ≡ cut_course cut (course_of whole) → IsAdmissible (releases_of whole) j
        → HaveBlocks j.format (groups_of (releases_of kept) (facts_in (cut_in cut j)))
        → (s : SealedFields) × IsHistory (with_job kept (cut_in cut j) s) }
    ensures course { (cut : Cut) (whole kept : History) (j : JobIn) (s t : SealedFields)
        → course_of kept ≡ cut_course cut (course_of whole)
        → course_of (with_job kept (cut_in cut j) s) ≡ cut_course cut (course_of (with_job whole j t)) }
{}
