//! What parts say of the entries that a job accepts.

ghost use Rattle.std.specs.Prelude.{◌≡◌, ◌≤◌, ◌<◌, ◌+◌, ◌*◌, ◌/◌, ◌%◌, ◌^◌, [], ◌∷◌, List, length, map, count_by};
ghost use Rattle.std.specs.Prelude.{slice_index_or, IfOk, IfErr, IfSome, OnOk};
ghost use Rattle.card_core.specs.PartFields.{PartFields};
ghost use Rattle.job_core.specs.declared.bounds.TheConstants.Limits.{PUBLISHED};
ghost use Rattle.ledger_core.specs.LedgerFields.{part_fields};
ghost use Rattle.universe_core.specs.Judging.{IsSearchable};
ghost use Rattle.audit_core.specs.Checking.{is_truth as is_truth_of, listing as listing_of, AreFine, is_told, IsFirstOf};
ghost use Rattle.audit_core.specs.declared.checking.Agreement.TheVariants as agreements;
ghost use Rattle.audit_core.specs.Fours.{agreement_at, agreements_from, agreement_told, said_told};

use crate::fault::AuditFault;
use crate::listing::listing;
use card_core::Verdict;
use ledger_core::{Ledger, LedgerPart};
use log_core::Entry;
use part_codec::Sealed;
use store_core::{Inquiry, parts_say_of_four};
use universe_core::guessed_places;

/// Whether the parts say the truth of an entry.
#[derive(Clone, Copy, Debug, PartialEq, Eq)]
pub(crate) enum Agreement {
    /// It isn't accepted.
    Skipped,
    /// The parts say the truth of it.
    Agrees,
    /// The parts say something else.
    Disagrees { held: Verdict, listed: bool },
}

/// Whether this is the verdict on a certificate that is listed, or isn't.
fn is_truth(held: Verdict, listed: bool) -> bool
    ensures { result ≡ is_truth_of held listed }
{
    match (held, listed) {
        (Verdict::Revoked, true) | (Verdict::Good, false) => true,
        _ => false,
    }
}

/// An entry that a job accepts, and whether its certificate is listed.
#[derive(Clone, Copy)]
struct Told<'a> {
    entry: &'a Entry,
    listed: bool,
}

/// The entry at a place, if there is one that the job of the part accepts.
fn told_at<'a>(
    ledger: &Ledger,
    part: &LedgerPart,
    entries: &'a [Option<Entry>],
    place: usize,
    guess: usize,
) -> Option<Told<'a>>
    requires { IsSearchable part.now }
    ensures { (parts : List PartFields)
        → agreement_at parts (listing_of ledger.now (part_fields part.now)) entries.now place
        ≡ agreement_told result (said_told parts result) }
{
    let entry = entries.get(place)?.as_ref()?;
    let listed = listing(ledger, part, entry, guess)?;
    Some(Told { entry, listed })
}

/// What is to be asked of the parts; nothing of a certificate that was never seen, where there is no entry.
fn inquiry_of<'a>(told: &Option<Told<'a>>, other: &Told<'a>) -> Inquiry<'a>
    ensures { IfSome told.now (λ t. (result.certificate ≡ t.entry.now.id) × (result.sightings.now ≡ t.entry.now.sighting ∷ [])) }
{
    match told {
        Some(told) => Inquiry::new(&told.entry.id, std::slice::from_ref(&told.entry.sighting)),
        None => Inquiry::new(&other.entry.id, &[]),
    }
}

/// What comes of an entry of which the parts say this, if it is told of.
fn agreement_on(told: &Option<Told>, held: Verdict) -> Agreement
    ensures { result ≡ agreement_told told.now held }
{
    match told {
        None => Agreement::Skipped,
        Some(told) => {
            if is_truth(held, told.listed) {
                Agreement::Agrees
            } else {
                Agreement::Disagrees {
                    held,
                    listed: told.listed,
                }
            }
        }
    }
}

/// What comes of the four entries from a place on, which the parts are asked of side by side.
fn ask_four(
    store: &[Sealed],
    ledger: &Ledger,
    part: &LedgerPart,
    entries: &[Option<Entry>],
    at: usize,
) -> [Agreement; 4]
    requires part { IsSearchable part.now }
    requires room { at + 3 < 2 ^ 64 }
    ensures { result ≡ agreements_from (map (λ s. s.part) store.now) (listing_of ledger.now (part_fields part.now)) entries.now at }
{
    let [at_a, at_b, at_c, at_d] = guessed_places(ledger.items(), entries, at);
    let a = told_at(ledger, part, entries, at, at_a);
    let b = told_at(ledger, part, entries, at + 1, at_b);
    let c = told_at(ledger, part, entries, at + 2, at_c);
    let d = told_at(ledger, part, entries, at + 3, at_d);
    let Some(any) = a.or(b).or(c).or(d) else {
        return [Agreement::Skipped; 4];
    };
    let [p, q, r, s] = parts_say_of_four(
        store,
        inquiry_of(&a, &any),
        inquiry_of(&b, &any),
        inquiry_of(&c, &any),
        inquiry_of(&d, &any),
    );
    [
        agreement_on(&a, p),
        agreement_on(&b, q),
        agreement_on(&c, r),
        agreement_on(&d, s),
    ]
}

/// What comes of the four entries among which this place is, if that is known at all but the first of their places.
fn four_with(
    store: &[Sealed],
    ledger: &Ledger,
    part: &LedgerPart,
    entries: &[Option<Entry>],
    place: usize,
    four: [Agreement; 4],
) -> [Agreement; 4]
    requires part { IsSearchable part.now }
    requires room { place + 3 < 2 ^ 64 }
    requires known { 0 < place % 4
        → four ≡ agreements_from (map (λ s. s.part) store.now)
        (listing_of ledger.now (part_fields part.now)) entries.now (4 * (place / 4)) }
    ensures { result ≡ agreements_from (map (λ s. s.part) store.now)
        (listing_of ledger.now (part_fields part.now)) entries.now (4 * (place / 4)) }
{
    if place % 4 == 0 {
        ask_four(store, ledger, part, entries, 4 * (place / 4))
    } else {
        four
    }
}

fn agreement_in(four: &[Agreement; 4], place: usize) -> Agreement
    ensures { result ≡ slice_index_or four.now (place % 4) agreements.Skipped }
{
    four[place % 4]
}

/// How many of the entries the job at this place accepts, if the parts say the truth of each of them; else the first of
/// which they don't. The part is the job's in the ledger.
pub(crate) fn check_entries(
    store: &[Sealed],
    ledger: &Ledger,
    part: &LedgerPart,
    job: u32,
    entries: &[Option<Entry>],
) -> Result<u32, AuditFault>
    requires part { IsSearchable part.now }
    requires few { length entries.now ≤ PUBLISHED.entries }
    ensures fine { OnOk result
        (AreFine (map (λ s. s.part) store.now) (listing_of ledger.now (part_fields part.now)) entries.now
        (length entries.now)) }
    ensures count { IfOk result (λ n. n ≡ count_by (is_told (listing_of ledger.now (part_fields part.now))) entries.now) }
    ensures first { IfErr result (λ e.
        IsFirstOf (map (λ s. s.part) store.now) (listing_of ledger.now (part_fields part.now)) job entries.now e) }
{
    let mut accepted = 0;
    let mut four = [Agreement::Skipped; 4];
    for place in 0..entries.len() {
        four = four_with(store, ledger, part, entries, place, four);
        match agreement_in(&four, place) {
            Agreement::Skipped => {}
            Agreement::Agrees => accepted += 1,
            Agreement::Disagrees { held, listed } => {
                return Err(AuditFault::Disagrees {
                    job,
                    entry: place as u32,
                    held,
                    truth: listed,
                });
            }
        }
    }
    Ok(accepted)
}
