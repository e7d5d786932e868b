//! What follows for every history, with no call.

ghost use Rattle.std.specs.Prelude.{◌≡◌, ◌∷◌, [], List, None, Ok, Result};
ghost use Rattle.part_text.specs.SealedFields.{SealedFields};
ghost use Rattle.job_core.specs.declared.bounds.TheConstants.Limits.{PUBLISHED};
ghost use Rattle.job_core.specs.JobFields.{JobFields};
ghost use Rattle.job_core.specs.Fitting.{FitsPublishing, IsWithinLimits};
ghost use Rattle.ledger_core.specs.LedgerFields.{LedgerFields};
ghost use Rattle.universe_core.specs.Jobs.{facts_of};
ghost use Rattle.universe_core.specs.Formats.{JobIn, in_format};
ghost use Rattle.universe_core.specs.History.{Release, past_of};
ghost use Rattle.universe_core.specs.Ledgers.{no_ledger, ledger_of};
ghost use Rattle.universe_core.specs.Counting.{counts};
ghost use Rattle.universe_core.specs.Step.{refusal, groups_after};
ghost use Rattle.publication_core.specs.declared.fault.PublishFault.{PublishFault};
ghost use Rattle.publication_core.specs.Formats.{current};
ghost use Rattle.publication_core.specs.Histories.{Published, IsPartOf, IsAdmissible, History, of_jobs, members};
ghost use Rattle.publication_core.specs.Histories.{with_job, with_jobs, IsHistory, releases_of, course_of};
ghost use Rattle.publication_core.specs.Building.{HaveBlocks};
ghost use Rattle.publication_core.specs.Publishing.{PublicationFields, Publishes};

/// A job has one part at most in its format, jobs publish one history at most, and one thing comes of a job behind a
/// ledger.
pub fn publications_are_unique()
    ensures part { (rs : List Release) (j : JobIn) (a b : SealedFields) → IsPartOf rs j a → IsPartOf rs j b → a ≡ b }
    ensures history { (g h : History) → IsHistory g → IsHistory h → course_of g ≡ course_of h → g ≡ h }
    ensures outcome { (ledger : LedgerFields) (job : JobFields) (a b : Result PublicationFields PublishFault)
        → Publishes ledger job a → Publishes ledger job b → a ≡ b }
{}

/// What is published of a job behind the ledger of a history is that of the history with the job: its part, its ledger
/// and its counts, at its place; and each admissible job is published. The ledger before a first job is that of no
/// history. A job of a history is admissible behind those before it.
pub fn histories_are_published()
    ensures none { ledger_of (releases_of (of_jobs [])) ≡ no_ledger }
    ensures admissible { (h : History) (job : JobFields) (p : PublicationFields)
        → IsHistory h → FitsPublishing job → IsWithinLimits PUBLISHED job
        → Publishes (ledger_of (releases_of h)) job (Ok p) → IsAdmissible (releases_of h) (in_format current job) }
    ensures history { (h : History) (job : JobFields) (p : PublicationFields)
        → IsHistory h → FitsPublishing job → IsWithinLimits PUBLISHED job
        → Publishes (ledger_of (releases_of h)) job (Ok p) → IsHistory (with_job h (in_format current job) p.sealed) }
    ensures ledger { (h : History) (job : JobFields) (p : PublicationFields) → IsHistory h
        → Publishes (ledger_of (releases_of h)) job (Ok p)
        → p.ledger ≡ ledger_of (releases_of (with_job h (in_format current job) p.sealed)) }
    ensures numbers { (h : History) (job : JobFields) (p : PublicationFields) → IsHistory h
        → Publishes (ledger_of (releases_of h)) job (Ok p) → p.counts ≡ counts (past_of (releases_of h)) (facts_of job) }
    ensures place { (h : History) (job : JobFields) (p : PublicationFields) → IsHistory h
        → Publishes (ledger_of (releases_of h)) job (Ok p) → p.place ≡ members h }
    ensures front { (h : History) (p : Published) (others : List Published) → IsHistory (with_jobs h (p ∷ others))
        → IsAdmissible (releases_of h) p.job }
    ensures complete { (h : History) (job : JobFields) → IsHistory h
        → IsAdmissible (releases_of h) (in_format current job)
        → (p : PublicationFields) × Publishes (ledger_of (releases_of h)) job (Ok p) }
{}

/// A job is published behind any ledger, that of a history or not, where nothing refuses it and each enrolled issuer
/// has a block.
pub fn what_can_be_is_published()
    ensures { (ledger : LedgerFields) (job : JobFields) → refusal PUBLISHED ledger job ≡ None
        → HaveBlocks current (groups_after ledger (facts_of job)) → (p : PublicationFields) × Publishes ledger job (Ok p) }
{}
