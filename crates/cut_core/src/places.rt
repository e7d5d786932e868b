//! Histories that are cut by the places of identities, or by those of their issuers.

ghost use Rattle.std.specs.Prelude.{◌≡◌, ◌≤◌, ◌<◌, ◌==◌, ◌*◌, ◌%◌, ℕ, List, Option, map, filter, length};
ghost use Rattle.ident_core.specs.declared.identity.Identity.{Identity};
ghost use Rattle.ident_core.specs.declared.range.Sighting.{Sighting};
ghost use Rattle.ident_core.specs.Among.{Among};
ghost use Rattle.place_core.specs.declared.place.By.{By};
ghost use Rattle.place_core.specs.Places.{issuer_place, place_in};
ghost use Rattle.place_core.specs.Cuts.{is_kept, everything, at_place};
ghost use Rattle.card_core.specs.PartFields.{PartFields};
ghost use Rattle.card_core.specs.Verdict.{verdict};
ghost use Rattle.job_core.specs.JobFields.{JobFields};
ghost use Rattle.universe_core.specs.Jobs.{Entry};
ghost use Rattle.universe_core.specs.Formats.{JobIn};
ghost use Rattle.universe_core.specs.History.{seen, sightings};
ghost use Rattle.history_core.specs.Truth.{truth};
ghost use Rattle.publication_core.specs.Histories.{History, IsHistory, parts_of, releases_of};
ghost use Rattle.audit_core.specs.Auditing.{AllAgree, left_by_jobs};
ghost use Rattle.cut_core.specs.Courses.{Course, from_base, left, course_of};
ghost use Rattle.piece_core.specs.Cuts.{entry_place};
ghost use Rattle.cut_core.specs.InPlaces.{job_at, in_at, course_at, AddUp};

/// The jobs of the places have the entries of the whole job, each in the one job of its place (`below`), in their
/// order (`parted`). By identities each has all its CRLs (`crls`), by issuers each CRL is in the one job of its
/// issuer's place (`issuer_crls`). A place keeps the identities that have it (`kept`). Where the count is a multiple of
/// another, a place lies in one place of that, so that places are cut again (`finer`).
pub fn entries_have_one_place()
    ensures below { (by : By) (count : ℕ) (o : Option Entry) → 1 ≤ count → entry_place by count o < count }
    ensures parted { (by : By) (count p : ℕ) (job : JobFields)
        → (job_at by count p job).entries ≡ filter (λ o. entry_place by count o == p) job.entries }
    ensures crls { (count p : ℕ) (job : JobFields) → (job_at By.Identity count p job).crls ≡ job.crls }
    ensures issuer_crls { (count p : ℕ) (job : JobFields)
        → (job_at By.Issuer count p job).crls ≡ filter (λ c. issuer_place c.issuer count == p) job.crls }
    ensures kept { (by : By) (count p : ℕ) (x : Identity)
        → is_kept (at_place by count p) x ≡ (place_in by count x == p) }
    ensures finer { (by : By) (count times : ℕ) (x : Identity) → 1 ≤ count
        → place_in by count x ≡ place_in by (count * times) x % count }
{}

/// Where the jobs of a certificate's place are a history with parts, the verdict of these parts for it, asked with
/// one or more of its accepted sightings in the whole jobs, is the truth of the whole jobs (`published`), and of a whole
/// history with parts of its own (`whole`). So is that of the parts of a chain that is begun anew by what its place keeps
/// of a history the truth of this, begun anew whole (`split`); and that of any parts with which an audit by the jobs of
/// the place agrees that of the whole jobs (`audited`).
pub fn places_say_the_truth()
    ensures published { (by : By) (count : ℕ) (c : Course) (x : Identity) (h : History)
        (ss : List Sighting) → course_of h ≡ course_at by count (place_in by count x) c → IsHistory h
        → 1 ≤ length ss
        → ((s : Sighting) → Among ss s → Among (sightings x (seen (left c))) s)
        → verdict (map (λ s. s.part) (parts_of h)) x ss ≡ truth (left c) x }
    ensures whole { (by : By) (count : ℕ) (whole kept : History) (x : Identity) (ss : List Sighting) → IsHistory kept
        → course_of kept ≡ course_at by count (place_in by count x) (course_of whole) → 1 ≤ length ss
        → ((s : Sighting) → Among ss s → Among (sightings x (seen (releases_of whole))) s)
        → verdict (map (λ s. s.part) (parts_of kept)) x ss ≡ truth (releases_of whole) x }
    ensures split { (by : By) (count : ℕ) (c : Course) (moment : ℕ) (jobs : List JobIn) (x : Identity) (h : History)
        (ss : List Sighting) → IsHistory h → course_of h ≡ from_base c moment (at_place by count (place_in by count x))
        (map (in_at by count (place_in by count x)) jobs) → 1 ≤ length ss
        → ((s : Sighting) → Among ss s
        → Among (sightings x (seen (left (from_base c moment everything jobs)))) s)
        → verdict (map (λ s. s.part) (parts_of h)) x ss ≡ truth (left (from_base c moment everything jobs)) x }
    ensures audited { (by : By) (count : ℕ) (jobs : List JobFields) (x : Identity) (parts : List PartFields)
        (ss : List Sighting) → AllAgree parts (map (job_at by count (place_in by count x)) jobs) → 1 ≤ length ss
        → ((s : Sighting) → Among ss s → Among (sightings x (seen (left_by_jobs jobs))) s)
        → verdict parts x ss ≡ truth (left_by_jobs jobs) x }
{}

/// What a job has of each behind a course is what the jobs of the places have of each together, behind theirs; but
/// by identities each of these enrolls all that the job does.
pub fn places_add_up()
    ensures { (by : By) (count : ℕ) (c : Course) (j : JobIn) → 1 ≤ count → AddUp by count c j }
{}
