//! What follows for every command over the files of a history, with no call.

ghost use Rattle.std.specs.Prelude.{◌≡◌, ◌≤◌, true, ℕ, List, [], ◌∷◌, ◌++◌, length, None, Result, Ok};
ghost use Rattle.ident_core.specs.declared.identity.Identity.{Identity};
ghost use Rattle.ident_core.specs.declared.range.Sighting.{Sighting};
ghost use Rattle.outside_core.specs.Files.{Files};
ghost use Rattle.input_core.specs.Queries.{Query};
ghost use Rattle.part_text.specs.SealedFields.{SealedFields};
ghost use Rattle.job_core.specs.JobFields.{JobFields};
ghost use Rattle.ledger_core.specs.LedgerFields.{LedgerFields};
ghost use Rattle.card_core.specs.declared.verdict.Verdict.TheVariants.{NotEnrolled};
ghost use Rattle.line_core.specs.Lines.{line};
ghost use Rattle.ident_core.specs.Among.{Among};
ghost use Rattle.ident_core.specs.declared.bounds.TheConstants.{MAX_ISSUERS};
ghost use Rattle.job_core.specs.declared.bounds.TheConstants.Limits.{PUBLISHED};
ghost use Rattle.universe_core.specs.Jobs.{Entry, facts_of};
ghost use Rattle.universe_core.specs.Formats.{dated, in_format};
ghost use Rattle.place_core.specs.Cuts.{Cut, is_kept};
ghost use Rattle.universe_core.specs.Rebases.{ledger_cut, issuers_in, is_lasting, rebased_groups};
ghost use Rattle.universe_core.specs.Step.{refusal, groups_after};
ghost use Rattle.universe_core.specs.History.{seen, sightings};
ghost use Rattle.publication_core.specs.Formats.{current};
ghost use Rattle.publication_core.specs.Histories.{Published, IsAdmissible, History, of_jobs, with_job, IsHistory};
ghost use Rattle.publication_core.specs.Histories.{parts_of, releases_of, LeavesOut};
ghost use Rattle.publication_core.specs.Building.{HaveBlocks};
ghost use Rattle.publication_core.specs.Publishing.{PublicationFields, Publishes};
ghost use Rattle.publication_core.specs.Rebasing.{BasePublicationFields, PublishesBase};
ghost use Rattle.word_core.specs.declared.command.Command.{Command};
ghost use Rattle.word_core.specs.declared.command.{Query.Query as StoreQuery, QueryCert.QueryCert, Rebase.Rebase};
ghost use Rattle.word_core.specs.declared.command.{Rehearse.Rehearse};
ghost use Rattle.command_core.specs.ReplyFields.{Done, NamedFault};
ghost use Rattle.command_core.specs.Commands.{Makes, only, query_done, rehearsed, verdict_word};
ghost use Rattle.command_core.specs.Replies.{held_by};
ghost use Rattle.command_core.specs.Rebasings.{cut_without, base_done};
ghost use Rattle.clubcard_top.specs.Headline.{AsksToContinue, Continues, done_by, AsksToStore, Stored, AsksTruth, truth_done};
ghost use Rattle.clubcard_top.specs.Headline.{AsksCertTruth, cert_truth_line, AsksToRehearse, IsRehearsed};
ghost use Rattle.clubcard_top.specs.Headline.{AsksToRebase, BeginsAnew, IsRebasableCut, base_of, IsKept, AsksTheBase, truth_line};
ghost use Rattle.clubcard_top.specs.Headline.{AsksStore, AsksOfLeftOut, Brings};

use history_core::{base_stands_for_its_history, releases_are_cut};
use publication_core::{
    bases_are_published, histories_are_published, issuers_that_are_left_out_come_back,
    ledgers_are_read_back, one_thing_comes_of_a_rebase, parts_are_chains, publications_are_unique,
    verdicts_are_the_truth, what_can_be_is_published,
};
use store_core::{chains_grow, stores_are_read_back};

/// What comes of commands over the files of histories. A job that is published behind a history continues it, and its
/// part and ledger are written; each admissible job is published. A part of a history is added to the store
/// of those before it. The store of a history says what its parts do (`told`). Asked with accepted sightings, it answers
/// the truth; and so it does where it is asked with a certificate, one of whose sightings is accepted, and each that a
/// part covers. Jobs that are rehearsed are a history, and each history is rehearsed. Behind any ledger, what can be
/// published is.
pub fn histories_are_made()
    ensures published { (command : Command) (files : Files)
        (h : History) (job : JobFields) (d : Done)
        → IsHistory h → AsksToContinue command h job files
        → Makes command (held_by command files) (Ok d)
        → (made : PublicationFields) × Continues h job made × (d ≡ done_by command made) }
    ensures admitted { (command : Command) (files : Files)
        (h : History) (job : JobFields) (o : Result Done NamedFault)
        → IsHistory h → AsksToContinue command h job files → IsAdmissible (releases_of h) (in_format current job)
        → Makes command (held_by command files) o → (d : Done) × (o ≡ Ok d) }
    ensures stored { (command : Command) (files : Files)
        (h : History) (parts : List SealedFields) (s : SealedFields) (o : Result Done NamedFault)
        → IsHistory h → parts_of h ≡ parts ++ s ∷ [] → AsksToStore command parts s files
        → Makes command (held_by command files) o → (d : Done) × (o ≡ Ok d) × Stored command parts s d }
    ensures told { (command : Command) (files : Files) (q : StoreQuery)
        (h : History) (o : Result Done NamedFault)
        → IsHistory h → AsksStore command q h files
        → Makes command (held_by command files) o → o ≡ Ok (query_done q (parts_of h)) }
    ensures asked { (command : Command) (files : Files) (q : StoreQuery)
        (h : History) (o : Result Done NamedFault)
        → IsHistory h → AsksTruth command q h files
        → Makes command (held_by command files) o → o ≡ Ok (truth_done h q) }
    ensures certified { (command : Command) (files : Files) (q : QueryCert) (x : Identity) (ss : List Sighting)
        (h : History) (o : Result Done NamedFault)
        → IsHistory h → AsksCertTruth command q x ss h files
        → Makes command (held_by command files) o → o ≡ Ok (only (cert_truth_line h x)) }
    ensures rehearsed { (command : Command) (files : Files) (r : Rehearse) (d : Done)
        → command ≡ Command.Rehearse r → Makes command (held_by command files) (Ok d)
        → (queries : List Query) × (jobs : List Published)
        × AsksToRehearse command queries jobs files × IsRehearsed queries jobs × (d ≡ rehearsed queries jobs) }
    ensures followed { (command : Command) (files : Files) (queries : List Query)
        (jobs : List Published) (o : Result Done NamedFault)
        → IsHistory (of_jobs jobs) → AsksToRehearse command queries jobs files
        → Makes command (held_by command files) o → o ≡ Ok (rehearsed queries jobs) }
    ensures publishable { (before : LedgerFields) (job : JobFields) → refusal PUBLISHED before job ≡ None
        → HaveBlocks current (groups_after before (facts_of job)) → (made : PublicationFields) × Publishes before job (Ok made) }
{
    publications_are_unique();
    histories_are_published();
    ledgers_are_read_back();
    parts_are_chains();
    verdicts_are_the_truth();
    chains_grow();
    stores_are_read_back();
    what_can_be_is_published();
    part_codec::a_text_is_read_back();
}

/// What comes of `rebase`, `rebase-without` and `split`, and of `query` after it. A history that is rebased has a base,
/// whose part and ledger are written; each history for which a base may stand is rebased, and behind any ledger, what
/// can be rebased is. Of an identity that has not expired and isn't left out the base keeps the sightings, and what the
/// history tells (`kept`): so the store of the base, asked with accepted sightings of the history, answers as that of
/// the history does (`asked`). Of an issuer that is left out the store says that it isn't enrolled wherever it covers,
/// until a job enrolls it (`left_out`); and the first that does accepts each of its entries that it covers
/// (`comes_back`).
pub fn bases_are_made()
    ensures rebased { (command : Command) (files : Files) (r : Rebase)
        (h : History) (d : Done)
        → IsHistory h → AsksToRebase command r h files
        → Makes command (held_by command files) (Ok d)
        → (made : BasePublicationFields) × BeginsAnew h r.moment (cut_without r.left) made × (d ≡ base_done r made) }
    ensures rebasable { (command : Command) (files : Files) (r : Rebase)
        (h : History) (o : Result Done NamedFault)
        → IsHistory h → AsksToRebase command r h files → IsRebasableCut r.moment (cut_without r.left) h
        → Makes command (held_by command files) o → (d : Done) × (o ≡ Ok d) }
    ensures kept { (h : History) (moment : ℕ) (cut : Cut) (s : SealedFields)
        (q : StoreQuery) → IsKept moment (releases_of h) q.id → is_kept cut q.id ≡ true
        → (sightings q.id (seen (releases_of (base_of h moment cut s))) ≡ sightings q.id (seen (releases_of h)))
        × (truth_line (base_of h moment cut s) q ≡ truth_line h q) }
    ensures asked { (command : Command) (files : Files) (q : StoreQuery)
        (h : History) (moment : ℕ) (cut : Cut) (s : SealedFields) (o : Result Done NamedFault)
        → IsHistory (base_of h moment cut s) → AsksTheBase command q h moment cut s files
        → Makes command (held_by command files) o → o ≡ Ok (truth_done h q) }
    ensures left_out { (command : Command) (files : Files) (q : StoreQuery)
        (h : History) (o : Result Done NamedFault)
        → IsHistory h → AsksOfLeftOut command q h files
        → Makes command (held_by command files) o → o ≡ Ok (only (line (verdict_word NotEnrolled))) }
    ensures comes_back { (h : History) (job : JobFields) (s : SealedFields) (e : Entry)
        → IsHistory h → LeavesOut h e.id.issuer → Brings job e
        → Among (seen (releases_of (with_job h (in_format current job) s))) e }
    ensures publishable { (before : LedgerFields) (moment : ℕ) (cut : Cut)
        → length (issuers_in (ledger_cut cut before).parts) ≤ MAX_ISSUERS
        → HaveBlocks dated (rebased_groups (is_lasting moment) (ledger_cut cut before))
        → (made : BasePublicationFields) × PublishesBase before moment cut (Ok made) }
{
    bases_are_published();
    one_thing_comes_of_a_rebase();
    issuers_that_are_left_out_come_back();
    ledgers_are_read_back();
    base_stands_for_its_history();
    releases_are_cut();
    histories_are_made();
}
