//! What follows for every ledger, with no call.

ghost use Rattle.std.specs.Prelude.{◌≡◌, ◌<◌, ℕ, List, get_or, length, Ok};
ghost use Rattle.ledger_core.specs.LedgerFields.{LedgerFields};
ghost use Rattle.ledger_core.specs.LedgerLayout.{ledger};
ghost use Rattle.ledger_core.specs.LedgerText.{ledger_text, old_ledger_text, HasNoDates, IsText};
ghost use Rattle.ledger_core.specs.Fitting.{Fits};

/// The text of a ledger is read as that ledger, and nothing follows. Each ledger that `encode_ledger` writes fits. A
/// ledger without dates is read off its text in version 1 as well.
pub fn a_text_is_read_back()
    ensures new { (l : LedgerFields) → Fits l → ledger (ledger_text l) 0 ≡ Ok (l, length (ledger_text l)) }
    ensures old { (l : LedgerFields) → Fits l → HasNoDates l → ledger (old_ledger_text l) 0 ≡ Ok (l, length (old_ledger_text l)) }
{}

/// What is read as a ledger is a text of a ledger that fits, from the first byte to the last.
pub fn only_a_text_is_read()
    ensures { (bytes : List ℕ) (l : LedgerFields) (n : ℕ) → ((i : ℕ) → get_or bytes i 0 < 256)
        → ledger bytes 0 ≡ Ok (l, n) → IsText l bytes × Fits l }
{}
