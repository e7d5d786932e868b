//! What the parts of a history say together.

ghost use Rattle.std.specs.Prelude.{◌≡◌, ◌≤◌, List, length, map};
ghost use Rattle.ident_core.specs.declared.identity.Identity.{Identity};
ghost use Rattle.ident_core.specs.declared.range.Sighting.{Sighting};
ghost use Rattle.ident_core.specs.Among.{Among};
ghost use Rattle.universe_core.specs.History.{seen, sightings};
ghost use Rattle.card_core.specs.Verdict.{verdict};
ghost use Rattle.publication_core.specs.Histories.{History, IsHistory, parts_of, releases_of};
ghost use Rattle.publication_core.specs.Truth.{truth};

/// The verdict of the parts of a history is the truth of the history, asked with one or more accepted sightings of the
/// certificate.
pub fn verdicts_are_the_truth()
    ensures { (h : History) (x : Identity) (ss : List Sighting) → IsHistory h → 1 ≤ length ss
        → ((s : Sighting) → Among ss s → Among (sightings x (seen (releases_of h))) s)
        → verdict (map (λ s. s.part) (parts_of h)) x ss ≡ truth (releases_of h) x }
{}
