//! What follows for the ledger of every history, with no call.

ghost use Rattle.std.specs.Prelude.{◌≡◌, ◌≤◌, Ok, length};
ghost use Rattle.ledger_core.specs.Fitting.{Fits};
ghost use Rattle.ledger_core.specs.LedgerLayout.{ledger};
ghost use Rattle.ledger_core.specs.LedgerReading.{ledger_of_bytes};
ghost use Rattle.ledger_core.specs.LedgerText.{HasNoDates};
ghost use Rattle.universe_core.specs.Ledgers.{ledger_of};
ghost use Rattle.publication_core.specs.Histories.{History, members, IsHistory, releases_of, ledger_bytes, old_ledger_bytes, IsUndated};

/// The ledger of a history of one or more members keeps the facts of ledgers, its numbers and keys fit their fields,
/// and its bytes are read as it, to the last one. So are its bytes in version 1 where no job's format reads dates, since
/// the ledger has none then (`undated`, `old_read`, `old_value`).
pub fn ledgers_are_read_back()
    ensures fits { (h : History) → IsHistory h → 1 ≤ members h → Fits (ledger_of (releases_of h)) }
    ensures read { (h : History) → IsHistory h → 1 ≤ members h
        → ledger (ledger_bytes h) 0 ≡ Ok (ledger_of (releases_of h), length (ledger_bytes h)) }
    ensures value { (h : History) → IsHistory h → 1 ≤ members h
        → ledger_of_bytes (ledger_bytes h) ≡ Ok (ledger_of (releases_of h)) }
    ensures undated { (h : History) → IsHistory h → 1 ≤ members h → IsUndated h
        → HasNoDates (ledger_of (releases_of h)) }
    ensures old_read { (h : History) → IsHistory h → 1 ≤ members h → IsUndated h
        → ledger (old_ledger_bytes h) 0 ≡ Ok (ledger_of (releases_of h), length (old_ledger_bytes h)) }
    ensures old_value { (h : History) → IsHistory h → 1 ≤ members h → IsUndated h
        → ledger_of_bytes (old_ledger_bytes h) ≡ Ok (ledger_of (releases_of h)) }
{}
