ghost use Rattle.std.specs.Prelude.{◌≡◌, ◌<◌, length, get_or, None};
ghost use Rattle.std.specs.Option.{option_map};
ghost use Rattle.ident_core.specs.Coverage.{RangesFit};
ghost use Rattle.ledger_core.specs.LedgerFields.{LedgerFields};
ghost use Rattle.universe_core.specs.Jobs.{facts_of_job};
ghost use Rattle.universe_core.specs.History.{class_of as class_told};
ghost use Rattle.universe_core.specs.Ledgers.{ledger_or_none, past_in};

use crate::class::Class;
use crate::enrolling::is_enrolled;
use crate::lateness::known_of;
use ident_core::place_covering;
use job_core::Job;
use ledger_core::Ledger;

/// What an entry of a job is, by its place, behind a ledger, or in a first job where there is none. The job's ranges
/// fit. It takes no memory.
pub fn class_of(ledger: Option<&Ledger>, job: &Job, entry: usize) -> Class
    requires within { entry < length job.now.entries.items }
    requires ranges { RangesFit job.now.ranges.items }
    ensures { result ≡ class_told
        (past_in (ledger_or_none (option_map {U = LedgerFields} (λ l. l.now) ledger.entry))) (facts_of_job job.now)
        (get_or job.now.entries.items entry None) }
{
    let Some(entry) = &job.entries[entry] else {
        return Class::Unread;
    };
    let Some(near) = place_covering(&job.ranges, &entry.sighting) else {
        return Class::Uncovered;
    };
    if !is_enrolled(job, &entry.id.issuer) {
        return Class::Unenrolled;
    }
    if let Some(ledger) = ledger {
        if known_of(ledger, entry, near, None).late {
            return Class::Late;
        }
    }
    Class::Accepted
}
