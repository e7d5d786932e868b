//! What the parts of cut histories say.

ghost use Rattle.std.specs.Prelude.{◌≡◌, ◌≤◌, ◌&&◌, ℕ, List, true, map, drop, length};
ghost use Rattle.std.specs.List.{list_any};
ghost use Rattle.ident_core.specs.declared.identity.Identity.{Identity};
ghost use Rattle.ident_core.specs.declared.range.Sighting.{Sighting};
ghost use Rattle.ident_core.specs.Among.{Among};
ghost use Rattle.card_core.specs.PartFields.{PartFields};
ghost use Rattle.card_core.specs.Verdict.{verdict};
ghost use Rattle.job_core.specs.JobFields.{JobFields};
ghost use Rattle.universe_core.specs.Jobs.{is_enrolled, lists};
ghost use Rattle.universe_core.specs.Formats.{JobIn, facts_in};
ghost use Rattle.universe_core.specs.History.{seen, sightings, birth, is_listed};
ghost use Rattle.history_core.specs.Truth.{truth};
ghost use Rattle.publication_core.specs.Histories.{Published, History, IsHistory, parts_of, releases_of};
ghost use Rattle.audit_core.specs.Auditing.{AllAgree, left_by_jobs};
ghost use Rattle.place_core.specs.Cuts.{Cut, is_kept, everything};
ghost use Rattle.cut_core.specs.Cutting.{cut_job, cut_in};
ghost use Rattle.cut_core.specs.Courses.{Course, from_jobs, from_base, left, cut_course, course_of};

/// Where cut jobs are a history with parts, the verdict of these parts for a kept certificate, asked with one or
/// more of its accepted sightings in the whole jobs, is the truth of the whole jobs (`published`), and of a whole
/// history with parts of its own (`whole`). So is that of any parts with which an audit by the cut jobs agrees
/// (`audited`). Where a chain is begun anew by what is kept of a history, and goes on with the cut jobs, the verdict is
/// the truth of the whole history, begun anew with all of it, and gone on with the whole jobs (`split`). And the truth
/// of jobs from the first on is, in words of the whole jobs, what a job since the certificate's birth lists and
/// enrolls the issuer of (`words`).
pub fn cut_parts_say_the_truth()
    ensures published { (cut : Cut) (c : Course) (h : History) (x : Identity)
        (ss : List Sighting) → course_of h ≡ cut_course cut c → IsHistory h → is_kept cut x ≡ true → 1 ≤ length ss
        → ((s : Sighting) → Among ss s → Among (sightings x (seen (left c))) s)
        → verdict (map (λ s. s.part) (parts_of h)) x ss ≡ truth (left c) x }
    ensures whole { (cut : Cut) (whole kept : History) (x : Identity) (ss : List Sighting) → IsHistory kept
        → course_of kept ≡ cut_course cut (course_of whole) → is_kept cut x ≡ true → 1 ≤ length ss
        → ((s : Sighting) → Among ss s → Among (sightings x (seen (releases_of whole))) s)
        → verdict (map (λ s. s.part) (parts_of kept)) x ss ≡ truth (releases_of whole) x }
    ensures audited { (cut : Cut) (jobs : List JobFields) (parts : List PartFields) (x : Identity)
        (ss : List Sighting) → AllAgree parts (map (cut_job cut) jobs) → is_kept cut x ≡ true → 1 ≤ length ss
        → ((s : Sighting) → Among ss s → Among (sightings x (seen (left_by_jobs jobs))) s)
        → verdict parts x ss ≡ truth (left_by_jobs jobs) x }
    ensures split { (cut : Cut) (c : Course) (moment : ℕ) (jobs : List JobIn) (h : History) (x : Identity)
        (ss : List Sighting) → IsHistory h → course_of h ≡ from_base c moment cut (map (cut_in cut) jobs)
        → is_kept cut x ≡ true → 1 ≤ length ss
        → ((s : Sighting) → Among ss s
        → Among (sightings x (seen (left (from_base c moment everything jobs)))) s)
        → verdict (map (λ s. s.part) (parts_of h)) x ss ≡ truth (left (from_base c moment everything jobs)) x }
    ensures words { (cut : Cut) (jobs : List JobIn) (ps : List Published) (x : Identity)
        → map (λ p. p.job) ps ≡ map (cut_in cut) jobs → is_kept cut x ≡ true
        → is_listed (left (from_jobs jobs)) x
        ≡ list_any (λ j. lists (facts_in j) x && is_enrolled (facts_in j) x.issuer)
        (drop (birth x (left (from_jobs jobs))) jobs) }
{}
