ghost use Rattle.std.specs.Prelude.{◌≡◌, ℕ, List, All, Option, None, IfSome};
ghost use Rattle.ident_core.specs.Sets.{has_key};
ghost use Rattle.universe_core.specs.Jobs.{Entry, JobFacts, enrolled, is_enrolled};
ghost use Rattle.universe_core.specs.Formats.{plain, sharded, dated, entries_in};

/// The enrolled issuers of a job are those that it enrolls by the test.
pub fn enrolment_is_a_test()
    ensures { (job : JobFacts) (issuer : List ℕ) → has_key (enrolled job) issuer ≡ is_enrolled job issuer }
{}

/// In the formats before dates no entry tells one, whatever its certificate says. In the dated format each entry is as it
/// was read.
pub fn formats_say_whether_dates_are_read()
    ensures plain { (entries : List (Option Entry)) → All (λ o. IfSome o (λ e. e.until ≡ None)) (entries_in plain entries) }
    ensures sharded { (entries : List (Option Entry)) → All (λ o. IfSome o (λ e. e.until ≡ None)) (entries_in sharded entries) }
    ensures dated { (entries : List (Option Entry)) → entries_in dated entries ≡ entries }
{}
