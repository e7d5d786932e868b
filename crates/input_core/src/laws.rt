//! What follows for every query file, with no call.

ghost use Rattle.std.specs.Prelude.{◌≡◌, ◌<◌, ℕ, List, get_or, length, Ok};
ghost use Rattle.input_core.specs.Queries.{Query, QueriesFit};
ghost use Rattle.input_core.specs.QueryLayout.{query_file};
ghost use Rattle.input_core.specs.QueryText.{queries_text};

/// The text of queries that fit is read as those queries, and nothing follows.
pub fn a_text_is_read_back()
    ensures { (qs : List Query) → QueriesFit qs → query_file (queries_text qs) 0 ≡ Ok (qs, length (queries_text qs)) }
{}

/// What is read as queries is the text of queries that fit, from the first byte to the last.
pub fn only_a_text_is_read()
    ensures { (bytes : List ℕ) (qs : List Query) (n : ℕ) → ((i : ℕ) → get_or bytes i 0 < 256)
        → query_file bytes 0 ≡ Ok (qs, n) → (bytes ≡ queries_text qs) × QueriesFit qs }
{}

/// Queries that have one text are the same.
pub fn queries_of_one_text_are_the_same()
    ensures { (qs rs : List Query) → QueriesFit qs → QueriesFit rs → queries_text qs ≡ queries_text rs → qs ≡ rs }
{}
