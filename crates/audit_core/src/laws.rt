ghost use Rattle.std.specs.Prelude.{◌≡◌, ◌≢◌, ◌≤◌, List, [], ◌∷◌, length, Result, Err, All};
ghost use Rattle.ident_core.specs.declared.bounds.TheConstants.{MAX_PARTS};
ghost use Rattle.ident_core.specs.declared.identity.Identity.{Identity};
ghost use Rattle.ident_core.specs.declared.range.Sighting.{Sighting};
ghost use Rattle.card_core.specs.PartFields.{PartFields};
ghost use Rattle.card_core.specs.declared.verdict.Verdict.TheVariants.{Good, Revoked};
ghost use Rattle.card_core.specs.Verdict.{verdict};
ghost use Rattle.job_core.specs.JobFields.{JobFields};
ghost use Rattle.ident_core.specs.Among.{Among};
ghost use Rattle.universe_core.specs.History.{seen, sightings};
ghost use Rattle.history_core.specs.Truth.{truth};
ghost use Rattle.audit_core.specs.declared.auditing.Audited.{Audited};
ghost use Rattle.audit_core.specs.declared.fault.AuditFault.{AuditFault};
ghost use Rattle.audit_core.specs.declared.fault.AuditFault.TheVariants.{NoMemory};
ghost use Rattle.audit_core.specs.Auditing.{IsAuditable, entries_of, left_by_jobs, AllAgree, IsFound};

/// One sighting at a time is enough. Asked with several sightings, parts say revoked exactly where they say so with one
/// of them alone; and they say good where they say so with each of them, of which there is one at least.
pub fn one_sighting_is_enough()
    ensures revoked { (parts : List PartFields) (x : Identity) (ss : List Sighting) (s : Sighting) → Among ss s
        → verdict parts x (s ∷ []) ≡ Revoked → verdict parts x ss ≡ Revoked }
    ensures by_one { (parts : List PartFields) (x : Identity) (ss : List Sighting) → verdict parts x ss ≡ Revoked
        → (s : Sighting) × Among ss s × (verdict parts x (s ∷ []) ≡ Revoked) }
    ensures good { (parts : List PartFields) (x : Identity) (ss : List Sighting) → 1 ≤ length ss
        → ((s : Sighting) → Among ss s → verdict parts x (s ∷ []) ≡ Good) → verdict parts x ss ≡ Good }
{}

/// Parts that say the truth of each accepted entry, asked with its one sighting, say the truth of each certificate of
/// the history, asked with one or more of its accepted sightings.
pub fn agreement_is_enough()
    ensures { (parts : List PartFields) (jobs : List JobFields) → AllAgree parts jobs
        → (x : Identity) (ss : List Sighting) → 1 ≤ length ss
        → ((s : Sighting) → Among ss s → Among (sightings x (seen (left_by_jobs jobs))) s)
        → verdict parts x ss ≡ truth (left_by_jobs jobs) x }
{}

/// An audit of some parts by some jobs finds one thing, if it doesn't want memory.
pub fn audits_are_unique()
    ensures { (parts : List PartFields) (jobs : List JobFields) (a b : Result Audited AuditFault)
        → IsFound parts jobs a → IsFound parts jobs b → a ≢ Err NoMemory → b ≢ Err NoMemory → a ≡ b }
{}

/// An audit of any parts by jobs that can be audited finds something.
pub fn audits_exist()
    ensures { (parts : List PartFields) (jobs : List JobFields) → length jobs ≤ MAX_PARTS → All IsAuditable jobs
        → entries_of jobs ≤ 4194304
        → (found : Result Audited AuditFault) × IsFound parts jobs found × (found ≢ Err NoMemory) }
{}
