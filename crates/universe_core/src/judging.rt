ghost use Rattle.std.specs.List.{list_all, count_by};
ghost use Rattle.std.specs.Prelude.{◌≡◌, filter, length, map, fold, ◌<◌, All, false};
ghost use Rattle.std.specs.Option.{option_map};
ghost use Rattle.universe_core.specs.Ledgers.{last_covers};
ghost use Rattle.ident_core.specs.Coverage.{covers};
ghost use Rattle.ledger_core.specs.LedgerFields.{part_fields};
ghost use Rattle.universe_core.specs.Judging.{IsSearchable, judge_of, is_late_beside, is_late_in, is_timely, is_timely_in, sightings_of};
ghost use Rattle.universe_core.specs.Judging.{with_date as date_with};
ghost use Rattle.universe_core.specs.Dates.{later_of as later};
ghost use Rattle.universe_core.specs.Reading.{IsPlaced, entries_of, sighting_in, date_in};

use crate::lateness::{birth_of, is_late, last_of};
use crate::member::Member;
use crate::read_entry::ReadEntry;
use ident_core::{Identity, Range, covers_near};
use ledger_core::{LedgerItem, LedgerPart};
use octets_core::Key32;

/// What entries are judged by: the parts of the ledger before their job, and the job's enrolled issuers and ranges.
#[derive(Clone, Copy)]
pub(crate) struct Context<'a> {
    pub(crate) parts: &'a [LedgerPart],
    pub(crate) issuers: &'a [Key32],
    pub(crate) ranges: &'a [Range],
}

fn comes_late(context: &Context, birth: usize, e: &ReadEntry) -> bool
    requires parts { All IsSearchable context.now.parts.now }
    requires placed { IsPlaced context.now.issuers.now context.now.ranges.now e.now }
    ensures { result ≡ is_late_in context.now birth e.now }
{
    let issuer = &context.issuers[e.place as usize];
    birth > 0
        && is_late(
            context.parts,
            birth,
            issuer,
            &e.sighting(context.ranges),
            e.near as usize,
        )
}

/// The date of an item, if there is one.
fn date_of(old: &Option<LedgerItem>) -> Option<Option<i64>>
    ensures { result ≡ option_map (λ i. i.until) old.now }
{
    match old {
        Some(item) => Some(item.until),
        None => None,
    }
}

/// The later of two dates; none where one of them isn't told.
fn later_of(x: Option<i64>, y: Option<i64>) -> Option<i64>
    ensures { result ≡ later x y }
{
    match (x, y) {
        (Some(x), Some(y)) => Some(x.max(y)),
        _ => None,
    }
}

/// The greatest date so far with one more, where there is none at first.
fn with_date(so_far: Option<Option<i64>>, date: Option<i64>) -> Option<Option<i64>>
    ensures { result ≡ date_with so_far date }
{
    match so_far {
        Some(until) => Some(later_of(until, date)),
        None => Some(date),
    }
}

/// What an identity's entries say: how many are late, and of the others whether the part of its last covers them, and
/// the greatest of their dates and of the item's, if there is any.
#[derive(Clone, Copy)]
struct RunFacts {
    late: usize,
    settled: bool,
    date: Option<Option<i64>>,
}

/// Where there is no part of a last.
fn facts_alone(
    context: &Context,
    birth: usize,
    run: &[ReadEntry],
    date: Option<Option<i64>>,
) -> RunFacts
    requires parts { All IsSearchable context.now.parts.now }
    requires placed { All (IsPlaced context.now.issuers.now context.now.ranges.now) run.now }
    ensures late { result.late ≡ count_by (is_late_in context.now birth) run.now }
    ensures settled { result.settled ≡ false }
    ensures date { result.date ≡ fold date_with date
        (map date_in (filter (is_timely_in context.now birth) run.now)) }
{
    let mut facts = RunFacts {
        late: 0,
        settled: false,
        date,
    };
    for e in run {
        if comes_late(context, birth, e) {
            facts.late += 1;
        } else {
            facts.date = with_date(facts.date, e.date());
        }
    }
    facts
}

/// Where this is the part of the last.
fn facts_beside(
    part: &LedgerPart,
    context: &Context,
    birth: usize,
    run: &[ReadEntry],
    date: Option<Option<i64>>,
) -> RunFacts
    requires part { IsSearchable part.now }
    requires parts { All IsSearchable context.now.parts.now }
    requires placed { All (IsPlaced context.now.issuers.now context.now.ranges.now) run.now }
    ensures late { result.late ≡ count_by (is_late_in context.now birth) run.now }
    ensures settled { result.settled ≡ list_all (λ e. covers part.now.ranges.items (sighting_in context.now.ranges.now e))
        (filter (is_timely_in context.now birth) run.now) }
    ensures date { result.date ≡ fold date_with date
        (map date_in (filter (is_timely_in context.now birth) run.now)) }
{
    let mut facts = RunFacts {
        late: 0,
        settled: true,
        date,
    };
    for e in run {
        if comes_late(context, birth, e) {
            facts.late += 1;
        } else {
            facts.date = with_date(facts.date, e.date());
            if !covers_near(&part.ranges, e.near as usize, &e.sighting(context.ranges)) {
                facts.settled = false;
            }
        }
    }
    facts
}

/// What the entries say of an identity that was born before so many of the parts, and has this last and this date.
fn facts_of(
    context: &Context,
    last: Option<u8>,
    birth: usize,
    run: &[ReadEntry],
    date: Option<Option<i64>>,
) -> RunFacts
    requires parts { All IsSearchable context.now.parts.now }
    requires placed { All (IsPlaced context.now.issuers.now context.now.ranges.now) run.now }
    ensures late { result.late ≡ count_by (is_late_in context.now birth) run.now }
    ensures settled { result.settled ≡ last_covers (map part_fields context.now.parts.now) last
        (sightings_of (filter (is_timely context.now.parts.now birth)
        (entries_of context.now.issuers.now context.now.ranges.now run.now))) }
    ensures date { result.date ≡ fold date_with date
        (map date_in (filter (is_timely_in context.now birth) run.now)) }
{
    match last {
        None => facts_alone(context, birth, run, date),
        Some(place) => match context.parts.get(place as usize) {
            None => facts_alone(context, birth, run, date),
            Some(part) => facts_beside(part, context, birth, run, date),
        },
    }
}

/// What becomes of an identity, and how many of its entries are late.
#[derive(Clone, Copy)]
pub(crate) struct Judged {
    pub(crate) member: Option<Member>,
    pub(crate) late: usize,
}

/// What becomes of an identity. It is accepted if it has an item, or an entry that isn't late.
pub(crate) fn judge(
    context: &Context,
    id: &Identity,
    old: &Option<LedgerItem>,
    run: &[ReadEntry],
) -> Judged
    requires few { length context.now.parts.now < 256 }
    requires parts { All IsSearchable context.now.parts.now }
    requires placed { All (IsPlaced context.now.issuers.now context.now.ranges.now) run.now }
    ensures member { result.member
        ≡ judge_of context.now.parts.now id.now old.now
        (entries_of context.now.issuers.now context.now.ranges.now run.now) }
    ensures late { result.late
        ≡ count_by (is_late_beside context.now.parts.now old.now)
        (entries_of context.now.issuers.now context.now.ranges.now run.now) }
{
    let birth = birth_of(context.parts, old);
    let last = last_of(old);
    let date = date_of(old);
    let facts = facts_of(context, last, birth as usize, run, date);
    let accepted = old.is_some() || facts.late < run.len();
    let until = facts.date.flatten();
    let member = Member {
        id: *id,
        birth,
        last,
        settled: facts.settled,
        until,
    };
    Judged {
        member: accepted.then_some(member),
        late: facts.late,
    }
}
