//! What follows for the base of every history, and what a ledger is that is cut, with no call.

ghost use Rattle.std.specs.Prelude.{◌≡◌, ◌≤◌, ◌+◌, ◌∷◌, [], ℕ, Bool, List, Ok, Result, Some, filter, length};
ghost use Rattle.std.specs.Prelude.{map, true, if◌then◌else◌};
ghost use Rattle.std.specs.List.{list_any};
ghost use Rattle.ident_core.specs.declared.identity.Identity.{Identity};
ghost use Rattle.ident_core.specs.declared.range.Sighting.{Sighting};
ghost use Rattle.part_text.specs.SealedFields.{SealedFields};
ghost use Rattle.ledger_core.specs.declared.fields.LedgerItem.{LedgerItem};
ghost use Rattle.ledger_core.specs.LedgerFields.{LedgerFields};
ghost use Rattle.ident_core.specs.declared.bounds.TheConstants.{MAX_ISSUERS};
ghost use Rattle.ident_core.specs.Among.{Among};
ghost use Rattle.ident_core.specs.Sets.{has};
ghost use Rattle.ident_core.specs.Coverage.{covers};
ghost use Rattle.place_core.specs.Cuts.{Cut, is_kept, everything};
ghost use Rattle.universe_core.specs.Formats.{JobIn, dated, facts_in};
ghost use Rattle.universe_core.specs.Jobs.{Entry, is_enrolled};
ghost use Rattle.universe_core.specs.History.{seen, sightings};
ghost use Rattle.universe_core.specs.Ledgers.{ledger_of};
ghost use Rattle.universe_core.specs.Rebases.{is_kept_item, ledger_cut, issuers_in, kept, count_pruned, count_left};
ghost use Rattle.universe_core.specs.Rebases.{is_lasting, rebased_head, rebased_groups};
ghost use Rattle.history_core.specs.Bases.{kept_by, releases_cut, is_lasting_by};
ghost use Rattle.card_core.specs.declared.verdict.Verdict.TheVariants as Verdict;
ghost use Rattle.card_core.specs.Consulting.{covers_some};
ghost use Rattle.card_core.specs.Verdict.{verdict};
ghost use Rattle.publication_core.specs.declared.base_fault.BaseFault.{BaseFault};
ghost use Rattle.publication_core.specs.Histories.{History, rebased, members, with_job, parts_of};
ghost use Rattle.publication_core.specs.Histories.{IsHistory, releases_of, IsRebasable, LeavesOut};
ghost use Rattle.publication_core.specs.Building.{HaveBlocks};
ghost use Rattle.publication_core.specs.Rebasing.{BasePublicationFields, PublishesBase, base_counts};

/// What a rebase publishes behind the ledger of a history is that of the history's base: a base may stand for it
/// (`rebasable`), the history that begins with this base has its part (`history`) and its ledger (`ledger`), and its
/// counts (`numbers`). Each history for which a base may stand is rebased (`complete`).
pub fn bases_are_published()
    ensures rebasable { (h : History) (moment : ℕ) (cut : Cut)
        (p : BasePublicationFields) → IsHistory h → 1 ≤ members h
        → PublishesBase (ledger_of (releases_of h)) moment cut (Ok p)
        → IsRebasable moment (releases_cut cut (releases_of h)) }
    ensures history { (h : History) (moment : ℕ) (cut : Cut)
        (p : BasePublicationFields) → IsHistory h → 1 ≤ members h
        → PublishesBase (ledger_of (releases_of h)) moment cut (Ok p)
        → IsHistory (rebased h moment cut p.sealed []) }
    ensures ledger { (h : History) (moment : ℕ) (cut : Cut)
        (p : BasePublicationFields) → IsHistory h
        → PublishesBase (ledger_of (releases_of h)) moment cut (Ok p)
        → p.ledger ≡ ledger_of (releases_of (rebased h moment cut p.sealed [])) }
    ensures numbers { (h : History) (moment : ℕ) (cut : Cut)
        (p : BasePublicationFields) → IsHistory h
        → PublishesBase (ledger_of (releases_of h)) moment cut (Ok p)
        → p.counts ≡ base_counts moment cut (releases_of h) }
    ensures complete { (h : History) (moment : ℕ) (cut : Cut)
        → IsHistory h → IsRebasable moment (releases_cut cut (releases_of h))
        → (p : BasePublicationFields) × PublishesBase (ledger_of (releases_of h)) moment cut (Ok p) }
{}

/// One thing comes of a rebase behind a ledger (`outcome`), that of a history or not: something is published or there
/// is a reason against it (`some`), and it is published where its issuers are few and each has a block (`complete`).
/// Want of memory is no reason.
pub fn one_thing_comes_of_a_rebase()
    ensures outcome { (ledger : LedgerFields) (moment : ℕ) (cut : Cut) (a b : Result BasePublicationFields BaseFault)
        → PublishesBase ledger moment cut a → PublishesBase ledger moment cut b → a ≡ b }
    ensures some { (ledger : LedgerFields) (moment : ℕ) (cut : Cut)
        → (o : Result BasePublicationFields BaseFault) × PublishesBase ledger moment cut o }
    ensures complete { (ledger : LedgerFields) (moment : ℕ) (cut : Cut)
        → length (issuers_in (ledger_cut cut ledger).parts) ≤ MAX_ISSUERS
        → HaveBlocks dated (rebased_groups (is_lasting moment) (ledger_cut cut ledger))
        → (p : BasePublicationFields) × PublishesBase ledger moment cut (Ok p) }
{}

/// A rebase keeps the verdicts: of an identity that has not expired and is kept by the cut, asked with one or
/// more accepted sightings of the history, the part of the base says what the parts of the history say.
pub fn rebases_keep_verdicts()
    ensures { (h : History) (moment : ℕ) (cut : Cut) (s : SealedFields)
        (x : Identity) (ss : List Sighting)
        → IsHistory (rebased h moment cut s [])
        → has (kept_by (is_lasting_by moment (releases_of h)) (releases_of h)) x ≡ true
        → is_kept cut x ≡ true
        → 1 ≤ length ss → ((t : Sighting) → Among ss t → Among (sightings x (seen (releases_of h))) t)
        → verdict (map (λ t. t.part) (parts_of h)) x ss ≡ verdict (s.part ∷ []) x ss }
{}

/// An issuer that a base leaves out can come back. While no job enrolls it, the parts say of its certificates that they
/// aren't enrolled wherever a part covers one of the sightings (`unenrolled`). The first job that enrolls it accepts each
/// of its entries that the job covers, those among them that were accepted before the base too (`come_back`): from then on
/// what holds of accepted sightings holds of them.
pub fn issuers_that_are_left_out_come_back()
    ensures unenrolled { (h : History) (x : Identity) (ss : List Sighting) → IsHistory h
        → LeavesOut h x.issuer → verdict (map (λ t. t.part) (parts_of h)) x ss
        ≡ (if list_any (covers_some ss) (map (λ t. t.part) (parts_of h)) then Verdict.NotEnrolled else Verdict.NotCovered) }
    ensures come_back { (h : History) (j : JobIn) (s : SealedFields) (e : Entry) → IsHistory h
        → LeavesOut h e.id.issuer → Among (facts_in j).entries (Some e) → covers (facts_in j).ranges e.sighting ≡ true
        → is_enrolled (facts_in j) e.id.issuer ≡ true → Among (seen (releases_of (with_job h j s))) e }
{}

/// A ledger is rebased to what a cut keeps where the ledger, cut, is rebased. That has the same head, a block for each
/// issuer that is taken, and of the items that last those that are kept. Each item lasts, is pruned or is left out. And
/// where everything is kept, it is the ledger itself.
pub fn ledgers_are_cut()
    ensures head { (cut : Cut) (ledger : LedgerFields) → rebased_head (ledger_cut cut ledger).parts ≡ rebased_head ledger.parts }
    ensures issuers { (cut : Cut) (ledger : LedgerFields)
        → issuers_in (ledger_cut cut ledger).parts ≡ filter cut.takes (issuers_in ledger.parts) }
    ensures items { (cut : Cut) (keeps : LedgerItem → Bool) (ledger : LedgerFields)
        → kept keeps (ledger_cut cut ledger) ≡ filter (is_kept_item cut) (kept keeps ledger) }
    ensures each { (cut : Cut) (keeps : LedgerItem → Bool) (ledger : LedgerFields)
        → length (kept keeps (ledger_cut cut ledger)) + count_pruned keeps (ledger_cut cut ledger) + count_left cut ledger
        ≡ length ledger.items }
    ensures all { (ledger : LedgerFields) → ledger_cut everything ledger ≡ ledger }
{}
