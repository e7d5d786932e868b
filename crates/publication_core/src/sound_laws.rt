//! What holds of every history: what it has accepted, which part is the last of an identity, and what is listed.

ghost use Rattle.std.specs.Prelude.{◌≡◌, ◌++◌, ◌∷◌, ◌&&◌, ◌||◌, [], ℕ, List, Some, true, is_some, drop};
ghost use Rattle.std.specs.List.{list_any, slice_get};
ghost use Rattle.ident_core.specs.declared.identity.Identity.{Identity};
ghost use Rattle.ident_core.specs.declared.range.Sighting.{Sighting};
ghost use Rattle.ident_core.specs.Coverage.{covers};
ghost use Rattle.part_text.specs.SealedFields.{SealedFields};
ghost use Rattle.ident_core.specs.Among.{Among};
ghost use Rattle.ident_core.specs.Sets.{has, has_key};
ghost use Rattle.place_core.specs.Cuts.{Cut};
ghost use Rattle.universe_core.specs.Jobs.{Entry, is_enrolled, lists};
ghost use Rattle.universe_core.specs.Formats.{facts_in};
ghost use Rattle.universe_core.specs.History.{Release, accepted_by, seen, sightings, birth, is_listed};
ghost use Rattle.universe_core.specs.Ledgers.{last};
ghost use Rattle.history_core.specs.Facts.{IsSound};
ghost use Rattle.history_core.specs.Bases.{kept_by, releases_cut, base_at, is_lasting_by};
ghost use Rattle.publication_core.specs.Histories.{Published, IsAdmissible, release_of, History, of_jobs, rebased};
ghost use Rattle.publication_core.specs.Histories.{IsHistory, parts_of, releases_of};

/// Every history is sound: it is so before the first job (`begun`), a base is where the releases are for which it stands
/// (`based`), and each job that may follow keeps it, from any state in which it is so (`kept`). So in each history:
///
/// - the last part of an identity, which the ledger keeps, covers all its accepted sightings (`last_covers`), and there
///   is one exactly for the listed (`last_listed`);
/// - each accepted sighting so far is covered by a member that enrolls the issuer (`covered`);
/// - where a member covers one and enrolls its issuer, the identity was accepted by then (`timely`);
/// - each accepted identity has an accepted entry (`entered`);
/// - listed is what some job from the identity's birth on lists, and enrolls the issuer of (`listed`); behind a base,
///   that, or what is kept and was listed in the history that it stands for (`listed_behind`).
pub fn histories_are_sound()
    ensures begun { IsSound (releases_of (of_jobs [])) }
    ensures based { (moment : ℕ) (rs : List Release) (s : SealedFields) → IsSound rs → IsSound (base_at moment rs s.trailer ∷ []) }
    ensures kept { (rs : List Release) (p : Published) → IsSound rs → IsAdmissible rs p.job
        → IsSound (rs ++ release_of rs p ∷ []) }
    ensures sound { (h : History) → IsHistory h → IsSound (releases_of h) }
    ensures last_covers { (h : History) (x : Identity) (k : ℕ) → IsHistory h
        → last x (releases_of h) ≡ Some k → (s : SealedFields) × (slice_get (parts_of h) k ≡ Some s)
        × ((t : Sighting) → Among (sightings x (seen (releases_of h))) t → covers s.part.head.ranges t ≡ true) }
    ensures last_listed { (h : History) (x : Identity) → IsHistory h
        → is_some (last x (releases_of h)) ≡ is_listed (releases_of h) x }
    ensures covered { (h : History) (e : Entry) → IsHistory h → Among (seen (releases_of h)) e
        → (r : Release) × Among (releases_of h) r × (covers r.ranges e.sighting ≡ true) × (has_key r.issuers e.id.issuer ≡ true) }
    ensures timely { (h : History) (e : Entry) (r : Release) → IsHistory h
        → Among (seen (releases_of h)) e → Among (releases_of h) r → covers r.ranges e.sighting ≡ true
        → has_key r.issuers e.id.issuer ≡ true → has r.accepted e.id ≡ true }
    ensures entered { (h : History) (x : Identity) → IsHistory h
        → has (accepted_by [] (releases_of h)) x ≡ true → (e : Entry) × Among (seen (releases_of h)) e × (e.id ≡ x) }
    ensures listed { (ps : List Published) (x : Identity) → IsHistory (of_jobs ps)
        → is_listed (releases_of (of_jobs ps)) x
        ≡ list_any (λ p. lists (facts_in p.job) x && is_enrolled (facts_in p.job) x.issuer)
        (drop (birth x (releases_of (of_jobs ps))) ps) }
    ensures listed_behind { (h : History) (moment : ℕ) (cut : Cut) (s : SealedFields) (ps : List Published) (x : Identity)
        → IsHistory (rebased h moment cut s ps) → is_listed (releases_of (rebased h moment cut s ps)) x
        ≡ ((has (kept_by (is_lasting_by moment (releases_cut cut (releases_of h)))
        (releases_cut cut (releases_of h))) x
        && is_listed (releases_cut cut (releases_of h)) x)
        || list_any (λ p. lists (facts_in p.job) x && is_enrolled (facts_in p.job) x.issuer)
        (drop (birth x (drop 1 (releases_of (rebased h moment cut s ps)))) ps)) }
{}
