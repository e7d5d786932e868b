ghost use Rattle.std.specs.Prelude.{◌≡◌, ℕ, List, [], ◌∷◌, ◌++◌, ◌+◌, ◌&&◌, ◌||◌, not, Bool, true, false, map};
ghost use Rattle.std.specs.Prelude.{filter, drop, length, Some, None, is_some};
ghost use Rattle.std.specs.Prelude.{ℤ, pos, Option};
ghost use Rattle.std.specs.List.{AllZip, list_any, slice_get};
ghost use Rattle.ident_core.specs.declared.identity.Identity.{Identity};
ghost use Rattle.ident_core.specs.declared.range.Sighting.{Sighting};
ghost use Rattle.ident_core.specs.Coverage.{covers};
ghost use Rattle.job_core.specs.declared.bounds.Limits.{Limits};
ghost use Rattle.job_core.specs.JobFields.{JobFields};
ghost use Rattle.ledger_core.specs.declared.fields.LedgerItem.{LedgerItem};
ghost use Rattle.ident_core.specs.Among.{Among};
ghost use Rattle.ident_core.specs.Sets.{has, has_key};
ghost use Rattle.place_core.specs.Cuts.{Cut, is_kept, everything};
ghost use Rattle.universe_core.specs.Jobs.{Entry, JobFacts, facts_of, enrolled, lists};
ghost use Rattle.universe_core.specs.History.{Release, Past, past_of, released, releases, accepted_by, seen};
ghost use Rattle.universe_core.specs.History.{sightings, birth, enrolls_and_lists, is_listed, already_revoked_by, comes_late_behind};
ghost use Rattle.universe_core.specs.History.{revoked, universe};
ghost use Rattle.universe_core.specs.Dates.{IsGreatest, greatest as greatest_of, until};
ghost use Rattle.universe_core.specs.Groups.{GroupFields, groups};
ghost use Rattle.universe_core.specs.Counting.{count, counts};
ghost use Rattle.universe_core.specs.declared.class.Class.TheVariants.{Unread, Uncovered, Unenrolled, Late, Accepted};
ghost use Rattle.universe_core.specs.Ledgers.{no_ledger, past_in, next_ledger, item_from, ledger_of, last};
ghost use Rattle.universe_core.specs.Rebases.{ledger_cut, is_lasting, rebased_head, rebased_groups, rebased_ledger};
ghost use Rattle.universe_core.specs.Step.{refusal, groups_after, counts_after};
ghost use Rattle.history_core.specs.Facts.{IsSound, KeepsCoverage, AllKeepCoverage, IsLastRevoking, Leaves, Widens};
ghost use Rattle.history_core.specs.Showing.{PartView, Shows, answers_of, said};
ghost use Rattle.history_core.specs.Publishing.{IsExactOnGroups, part_of};
ghost use Rattle.history_core.specs.Beginnings.{sees};
ghost use Rattle.history_core.specs.Bases.{kept_by, base_with, base_head, releases_cut, is_lasting_by, base_at};
ghost use Rattle.history_core.specs.Example.{certificate, second_job, after_first};

/// The facts hold of no release, and each job that isn't refused keeps them, from any state in which they hold
/// (`nothing`, `next`). More is kept: any job does whose coverage holds that of the newest release (`kept`), as that of
/// a job that isn't refused does (`admitted`). So the facts hold after each job of a history.
pub fn facts_hold()
    ensures nothing { IsSound [] }
    ensures next { (limits : Limits) (rs : List Release) (job : JobFields) (trailer : List ℕ) → IsSound rs
        → refusal limits (ledger_of rs) job ≡ None
        → IsSound (rs ++ released (past_of rs) (facts_of job) trailer ∷ []) }
    ensures kept { (rs : List Release) (job : JobFacts) (trailer : List ℕ) → IsSound rs → KeepsCoverage rs job
        → IsSound (rs ++ released (past_of rs) job trailer ∷ []) }
    ensures history { (trailer : List Release → JobFacts → List ℕ) (rs : List Release) (jobs : List JobFacts) → IsSound rs
        → AllKeepCoverage trailer rs jobs → IsSound (releases trailer rs jobs) }
    ensures admitted { (limits : Limits) (rs : List Release) (job : JobFields)
        → refusal limits (ledger_of rs) job ≡ None → KeepsCoverage rs (facts_of job) }
{}

/// The ledger of a history tells a job what the history tells it, so that the groups and the counts are the history's,
/// and the next ledger is that of the history with the job.
pub fn ledger_step_is_the_historys()
    ensures told { (rs : List Release) → IsSound rs → past_in (ledger_of rs) ≡ past_of rs }
    ensures next { (rs : List Release) → IsSound rs → (job : JobFacts) (trailer : List ℕ)
        → next_ledger (ledger_of rs) job trailer ≡ ledger_of (rs ++ released (past_of rs) job trailer ∷ []) }
    ensures groups { (rs : List Release) → IsSound rs → (job : JobFacts) (trailer : List ℕ)
        → groups_after (ledger_of rs) job ≡ groups (released (past_of rs) job trailer) }
    ensures counts { (rs : List Release) → IsSound rs → (job : JobFacts) → counts_after (ledger_of rs) job ≡ counts (past_of rs) job }
{}

/// Asked with accepted sightings of a certificate, the parts of a history answer the truth: some part answers, and one
/// of the answers is positive exactly if the certificate is listed. So it is of any parts that show the releases, and
/// of the parts that a test gives which is exact on the universe of each group; a test that says of each group's
/// universe what the flags beside it say is exact.
pub fn answers_are_the_truth()
    ensures shown { (parts : List PartView) (rs : List Release) (x : Identity) (s : Sighting) (ss : List Sighting)
        → IsSound rs → AllZip Shows parts rs
        → ((t : Sighting) → Among (s ∷ ss) t → Among (sightings x (seen rs)) t)
        → (a : Bool) × (others : List Bool) × (answers_of x (s ∷ ss) parts ≡ a ∷ others)
        × (list_any (λ b. b) (a ∷ others) ≡ is_listed rs x) }
    ensures published { (positive : GroupFields → Identity → Bool) (rs : List Release) (x : Identity) (s : Sighting)
        (ss : List Sighting) → IsSound rs → ((r : Release) → Among rs r → IsExactOnGroups positive r)
        → ((t : Sighting) → Among (s ∷ ss) t → Among (sightings x (seen rs)) t)
        → (a : Bool) × (others : List Bool) × (answers_of x (s ∷ ss) (map (part_of positive) rs) ≡ a ∷ others)
        × (list_any (λ b. b) (a ∷ others) ≡ is_listed rs x) }
    ensures flags { (positive : GroupFields → Identity → Bool) (r : Release)
        → ((g : GroupFields) → Among (groups r) g → AllZip (λ x b. positive g x ≡ b) g.universe g.revoked)
        → IsExactOnGroups positive r }
{}

/// The last part of an identity covers all its accepted sightings, and it has one exactly if it is listed.
pub fn last_part_covers()
    ensures covers { (rs : List Release) (x : Identity) (k : ℕ) → IsSound rs → last x rs ≡ Some k
        → (r : Release) × (slice_get rs k ≡ Some r) × ((s : Sighting) → Among (sightings x (seen rs)) s → covers r.ranges s ≡ true) }
    ensures listed { (rs : List Release) (x : Identity) → IsSound rs → is_some (last x rs) ≡ is_listed rs x }
{}

/// A base stands for its history, whichever identities it keeps. The facts hold of it alone (`sound`), and so after each
/// job behind it. It knows of an identity that it keeps what the history does: its accepted sightings, its date, and
/// whether it is listed. So a rebase keeps the verdicts: asked with accepted sightings of such an identity, the part of
/// the base says what the parts of the history say together (`said`).
pub fn base_stands_for_its_history()
    ensures sound { (keeps : Identity → Bool) (rs : List Release) (trailer : List ℕ) → IsSound rs
        → IsSound (base_with keeps rs trailer ∷ []) }
    ensures kept_sightings { (keeps : Identity → Bool) (rs : List Release) (trailer : List ℕ) (x : Identity)
        → has (kept_by keeps rs) x ≡ true
        → sightings x (seen (base_with keeps rs trailer ∷ [])) ≡ sightings x (seen rs) }
    ensures kept_date { (keeps : Identity → Bool) (rs : List Release) (trailer : List ℕ) (x : Identity) → has (kept_by keeps rs) x ≡ true
        → until x (base_with keeps rs trailer ∷ []) ≡ until x rs }
    ensures kept_listing { (keeps : Identity → Bool) (rs : List Release) (trailer : List ℕ) (x : Identity) → has (kept_by keeps rs) x ≡ true
        → is_listed (base_with keeps rs trailer ∷ []) x ≡ is_listed rs x }
    ensures verdicts { (keeps : Identity → Bool) (parts : List PartView) (part : PartView) (rs : List Release) (trailer : List ℕ)
        (x : Identity) (s : Sighting) (ss : List Sighting) → IsSound rs → AllZip Shows parts rs → Shows part (base_with keeps rs trailer)
        → has (kept_by keeps rs) x ≡ true → ((t : Sighting) → Among (s ∷ ss) t → Among (sightings x (seen rs)) t)
        → said (answers_of x (s ∷ ss) parts) ≡ said (answers_of x (s ∷ ss) (part ∷ [])) }
{}

/// The releases of a history, cut, are sound (`sound`), and their ledger is that of the history, cut (`ledger`), so that
/// what holds of the base of a history holds of a base of what a cut keeps. They have the head, and of what was accepted
/// all that is kept; and of an identity that is kept they know what the history does: its accepted sightings, its date,
/// whether it is listed, and whether a base keeps it. Where everything is kept, they are the history's (`all`).
pub fn releases_are_cut()
    ensures sound { (cut : Cut) (rs : List Release) → IsSound rs → IsSound (releases_cut cut rs) }
    ensures ledger { (cut : Cut) (rs : List Release) → ledger_cut cut (ledger_of rs) ≡ ledger_of (releases_cut cut rs) }
    ensures head { (cut : Cut) (rs : List Release) → base_head (releases_cut cut rs) ≡ base_head rs }
    ensures accepted { (cut : Cut) (rs : List Release)
        → accepted_by [] (releases_cut cut rs) ≡ filter (is_kept cut) (accepted_by [] rs) }
    ensures sightings { (cut : Cut) (rs : List Release) (x : Identity) → is_kept cut x ≡ true
        → sightings x (seen (releases_cut cut rs)) ≡ sightings x (seen rs) }
    ensures date { (cut : Cut) (rs : List Release) (x : Identity) → is_kept cut x ≡ true
        → until x (releases_cut cut rs) ≡ until x rs }
    ensures listing { (cut : Cut) (rs : List Release) (x : Identity) → is_kept cut x ≡ true
        → is_listed (releases_cut cut rs) x ≡ is_listed rs x }
    ensures kept { (moment : ℕ) (cut : Cut) (rs : List Release) (x : Identity) → is_kept cut x ≡ true
        → has (kept_by (is_lasting_by moment (releases_cut cut rs)) (releases_cut cut rs)) x
        ≡ has (kept_by (is_lasting_by moment rs) rs) x }
    ensures all { (rs : List Release) → releases_cut everything rs ≡ rs }
{}

/// An issuer that a cut leaves out can come back. The base without it doesn't enroll it (`unenrolled`). While no release
/// does, none of its entries is late, whatever the releases cover and whatever was accepted before the base (`timely`);
/// so the first job that enrolls it accepts each of its entries that the job covers (`accepted`).
pub fn left_out_issuers_come_back()
    ensures unenrolled { (keeps : Identity → Bool) (cut : Cut) (rs : List Release) (trailer issuer : List ℕ)
        → cut.takes issuer ≡ false → has_key (base_with keeps (releases_cut cut rs) trailer).issuers issuer ≡ false }
    ensures timely { (rs : List Release) (x : Identity) (s : Sighting)
        → ((r : Release) → Among rs r → has_key r.issuers x.issuer ≡ false) → comes_late_behind rs x s ≡ false }
    ensures accepted { (rs : List Release) (job : JobFacts) (trailer : List ℕ) (e : Entry)
        → ((r : Release) → Among rs r → has_key r.issuers e.id.issuer ≡ false) → Among job.entries (Some e)
        → covers job.ranges e.sighting ≡ true → has_key (enrolled job) e.id.issuer ≡ true
        → Among (seen (rs ++ released (past_of rs) job trailer ∷ [])) e }
{}

/// What a rebase makes of the ledger of a history is what the base of that history makes: the head of its part, its
/// groups and its ledger, whichever items are kept. Those that have not expired at a moment are those of the identities
/// of the history that haven't (`at_a_moment`).
pub fn rebase_makes_the_base()
    ensures head { (rs : List Release) → rebased_head (ledger_of rs).parts ≡ base_head rs }
    ensures groups { (keeps : LedgerItem → Bool) (rs : List Release) (trailer : List ℕ) → IsSound rs
        → rebased_groups keeps (ledger_of rs) ≡ groups (base_with (λ x. keeps (item_from rs x)) rs trailer) }
    ensures ledger { (keeps : LedgerItem → Bool) (rs : List Release) (trailer : List ℕ) → IsSound rs
        → rebased_ledger keeps (ledger_of rs) trailer ≡ ledger_of (base_with (λ x. keeps (item_from rs x)) rs trailer ∷ []) }
    ensures at_a_moment { (moment : ℕ) (rs : List Release) (trailer : List ℕ) → IsSound rs
        → (rebased_groups (is_lasting moment) (ledger_of rs) ≡ groups (base_at moment rs trailer))
        × (rebased_ledger (is_lasting moment) (ledger_of rs) trailer ≡ ledger_of (base_at moment rs trailer ∷ [])) }
{}

/// The definitions in other words. The revoked set: of the universe, what is listed up to now, without what an earlier
/// part revokes while it covers all its sightings. Listed: some job that had accepted the identity by then enrolls its
/// issuer and lists it (`listed_once`); or, by the jobs of any releases that leave what their jobs say, some job from
/// its first acceptance on does (`listed`). No releases and no jobs are so, and a job more
/// with what it leaves keeps it (`leaves_none`, `leaves_more`), so those of a history are (`leaves`, `listed_by_jobs`).
/// Behind a base: the base lists it, or such a job does (`listed_behind`).
/// The five classes add up to the entries. The last part that revokes an identity is the one behind which none does
/// (`last`). The greatest of some dates is none where there is none or one isn't told,
/// and else one of them that no other is above (`greatest`).
pub fn words_hold()
    ensures revoked_set { (rs : List Release) (job : JobFacts) (trailer : List ℕ) (x : Identity)
        → has (revoked (past_of rs) job) x
        ≡ ((is_listed (rs ++ released (past_of rs) job trailer ∷ []) x
        && not (already_revoked_by rs x (sightings x (seen (rs ++ released (past_of rs) job trailer ∷ [])))))
        && has (universe (past_of rs) job) x) }
    ensures listed_once { (rs : List Release) (x : Identity) → Widens rs
        → is_listed rs x ≡ list_any (λ r. has r.accepted x && enrolls_and_lists x r) rs }
    ensures listed { (x : Identity) (jobs : List JobFacts) (rs : List Release) → AllZip Leaves jobs rs
        → is_listed rs x ≡ list_any (λ job. lists job x && has_key (enrolled job) x.issuer) (drop (birth x rs) jobs) }
    ensures listed_behind { (x : Identity) (jobs : List JobFacts) (base : Release) (rs : List Release)
        → AllZip Leaves jobs rs → Widens (base ∷ rs)
        → is_listed (base ∷ rs) x
        ≡ (is_listed (base ∷ []) x || list_any (λ job. lists job x && has_key (enrolled job) x.issuer) (drop (birth x rs) jobs)) }
    ensures leaves_none { AllZip Leaves [] [] }
    ensures leaves_more { (jobs : List JobFacts) (job : JobFacts) (rs : List Release) (trailer : List ℕ) → AllZip Leaves jobs rs
        → AllZip Leaves (jobs ++ job ∷ []) (rs ++ released (past_of rs) job trailer ∷ []) }
    ensures listed_by_jobs { (trailer : List Release → JobFacts → List ℕ) (jobs : List JobFacts) (x : Identity)
        → is_listed (releases trailer [] jobs) x
        ≡ list_any (λ job. lists job x && has_key (enrolled job) x.issuer)
        (drop (birth x (releases trailer [] jobs)) jobs) }
    ensures leaves { (trailer : List Release → JobFacts → List ℕ) (jobs before : List JobFacts) (rs : List Release)
        → AllZip Leaves before rs → AllZip Leaves (before ++ jobs) (releases trailer rs jobs) }
    ensures classes { (past : Past) (job : JobFacts)
        → count Unread past job + count Uncovered past job + count Unenrolled past job + count Late past job
        + count Accepted past job ≡ length job.entries }
    ensures last { (rs : List Release) (x : Identity) → IsLastRevoking x rs (last x rs) }
    ensures greatest { (ds : List (Option ℤ)) → IsGreatest ds (greatest_of ds) }
{}

/// A history of one job: the facts hold after it, with nothing asked of the job. The empty ledger tells it what no
/// history tells, so that its groups and the ledger after it are those of its release, whatever the trailer of its
/// part.
pub fn first_job_is_sound()
    ensures told { past_in no_ledger ≡ past_of [] }
    ensures sound { (trailer : List Release → JobFacts → List ℕ) (job : JobFacts) → IsSound (releases trailer [] (job ∷ [])) }
    ensures groups { (job : JobFacts) (trailer : List ℕ) → groups_after no_ledger job ≡ groups (released (past_of []) job trailer) }
    ensures next { (job : JobFacts) (trailer : List ℕ)
        → next_ledger no_ledger job trailer ≡ ledger_of (released (past_of []) job trailer ∷ []) }
{}

/// In a history of one job a certificate is listed exactly if the job lists it, enrolls its issuer and covers an entry
/// of it; and the job revokes what it lists.
pub fn first_job_in_words()
    ensures listed { (trailer : List Release → JobFacts → List ℕ) (job : JobFacts) (x : Identity)
        → is_listed (releases trailer [] (job ∷ [])) x
        ≡ (lists job x && (has_key (enrolled job) x.issuer && sees job x)) }
    ensures revoked { (trailer : List Release → JobFacts → List ℕ) (job : JobFacts) (x : Identity)
        → has (revoked (past_of []) job) x ≡ is_listed (releases trailer [] (job ∷ [])) x }
{}

/// By example: of five entries of a second job one is late, and a serial that its CRL drops stays revoked. An identity
/// keeps the later of its dates, and none where one isn't told.
pub fn two_jobs_computed()
    ensures counts { counts (past_of after_first) second_job
        ≡ record {
          issuers = 1;
          universe = 3;
          revoked = 1;
          unread = 1;
          uncovered = 1;
          unenrolled = 0;
          late = 1;
          accepted = 2;
        } }
    ensures items { (next_ledger (ledger_of after_first) second_job []).items
        ≡ record { id = certificate 5; birth = 0; last = Some 1; until = Some (pos 30) }
        ∷ record { id = certificate 6; birth = 0; last = None; until = Some (pos 20) }
        ∷ record { id = certificate 8; birth = 1; last = None; until = None }
        ∷ [] }
{}
