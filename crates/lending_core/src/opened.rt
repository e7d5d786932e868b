//! What is asked of a store that was opened, by its bytes and its index. No call takes memory. Of bytes that are no
//! store, or of numbers that aren't its index, some verdict is given.

ghost use Rattle.std.specs.Prelude.{◌≡◌, List, map, Ok, Err, IfOk, IfErr};
ghost use Rattle.part_text.specs.SealedFields.{SealedFields};
ghost use Rattle.card_core.specs.Verdict.{verdict};
ghost use Rattle.card_core.specs.declared.verdict.Verdict.{Verdict as Said};
ghost use Rattle.view_core.specs.Covering.{covered_until as covered_to};
ghost use Rattle.view_core.specs.Opening.{IsOpened};
ghost use Rattle.lending_core.specs.Lent.{sighting_of, serial_of, slice_in};
ghost use Rattle.lending_core.specs.Asking.{with_some, cert_reads, ask_gives, ask_cert_gives, each_says};
ghost use Rattle.lending_core.specs.Replies.{answer_of, verdict_number, answered, CoversUntil};

use crate::asking::issuer_in;
use crate::fault::LentFault;
use crate::lent::{LentQuery, LentSighting, serial_from, serial_within, slice_within};
use crate::numbers;
use crate::replies::verdict_answer;
use card_core::Verdict;
use ident_core::{Identity, Sighting};
use octets_core::Key32;
use sct_core::{cert_serial, scts};
use view_core::{Seen, View};

/// What the store says of the certificate.
fn said<S: Seen>(store: &[u8], index: &[u32], id: &Identity, sightings: &[S]) -> Verdict
    ensures { (parts : List SealedFields) → IsOpened store.now index.now parts
        → result ≡ verdict (map (λ s. s.part) parts) id.now (map S.sighting sightings.now) }
{
    View::of(store, index).says(id, sightings)
}

/// The same, by sightings of this project's own type.
fn said_by(store: &[u8], index: &[u32], id: &Identity, sightings: &[Sighting]) -> Verdict
    ensures { (parts : List SealedFields) → IsOpened store.now index.now parts
        → result ≡ verdict (map (λ s. s.part) parts) id.now sightings.now }
{
    said(store, index, id, sightings)
}

/// The query's own of all sightings.
fn own_sightings<'a>(
    query: &LentQuery,
    all: &'a [LentSighting],
) -> Result<&'a [LentSighting], LentFault>
    ensures ok { IfOk result (λ own. slice_in query.now (map sighting_of all.now) ≡ Ok (map sighting_of own.now)) }
    ensures err { IfErr result (λ e. slice_in query.now (map sighting_of all.now) ≡ Err e) }
{
    match slice_within(query, all) {
        Ok(own) => Ok(own),
        Err(fault) => Err(fault),
    }
}

fn asked(
    store: &[u8],
    index: &[u32],
    issuer: &[u8; 32],
    serial: &[u8],
    sightings: &[LentSighting],
) -> Result<Verdict, LentFault>
    ensures opened { (parts : List SealedFields) → IsOpened store.now index.now parts
        → result ≡ ask_gives parts issuer.now serial.now (map sighting_of sightings.now) }
    ensures other { (v : Said) × (result ≡ with_some v (serial_of serial.now)) }
{
    match serial_from(serial) {
        Ok(serial) => {
            let issuer = Key32::new(*issuer);
            let id = Identity { issuer, serial };
            Ok(said(store, index, &id, sightings))
        }
        Err(fault) => Err(fault),
    }
}

/// The number of the verdict on the certificate with this issuer key's hash and this serial, which logs saw, or of the
/// serial's fault.
pub fn ask(
    store: &[u8],
    index: &[u32],
    issuer: &[u8; 32],
    serial: &[u8],
    sightings: &[LentSighting],
) -> u32
    ensures opened { (parts : List SealedFields) → IsOpened store.now index.now parts
        → result ≡ (answer_of verdict_number (ask_gives parts issuer.now serial.now (map sighting_of sightings.now))).number }
    ensures other { (v : Said) × (result ≡ (answer_of verdict_number (with_some v (serial_of serial.now))).number) }
{
    verdict_answer(asked(store, index, issuer, serial, sightings)).number
}

fn asked_cert(
    store: &[u8],
    index: &[u32],
    cert: &[u8],
    issuer_cert: &[u8],
) -> Result<Verdict, LentFault>
    ensures opened { (parts : List SealedFields) → IsOpened store.now index.now parts
        → result ≡ ask_cert_gives parts cert.now issuer_cert.now }
    ensures other { (v : Said) × (result ≡ with_some v (cert_reads cert.now issuer_cert.now)) }
{
    let serial = match cert_serial(cert) {
        Ok(serial) => serial,
        Err(fault) => return Err(LentFault::BadCert(fault)),
    };
    let scts = match scts(cert) {
        Ok(scts) => scts,
        Err(fault) => return Err(LentFault::BadCert(fault)),
    };
    let issuer = match issuer_in(issuer_cert) {
        Ok(issuer) => issuer,
        Err(fault) => return Err(fault),
    };
    let id = Identity { issuer, serial };
    Ok(said_by(store, index, &id, scts.sightings()))
}

/// The number of the verdict on a certificate with its timestamps, by its issuer's certificate, both in DER, or of the
/// first fault: that of the certificate, and then that of its issuer's.
pub fn ask_cert(store: &[u8], index: &[u32], cert: &[u8], issuer_cert: &[u8]) -> u32
    ensures opened { (parts : List SealedFields) → IsOpened store.now index.now parts
        → result ≡ (answer_of verdict_number (ask_cert_gives parts cert.now issuer_cert.now)).number }
    ensures other { (v : Said)
        × (result ≡ (answer_of verdict_number (with_some v (cert_reads cert.now issuer_cert.now))).number) }
{
    verdict_answer(asked_cert(store, index, cert, issuer_cert)).number
}

/// The verdict on one of many queries.
fn asked_one(
    store: &[u8],
    index: &[u32],
    all: &[LentSighting],
    query: &LentQuery,
) -> Result<Verdict, LentFault>
    ensures { (parts : List SealedFields) → IsOpened store.now index.now parts
        → result ≡ each_says parts (map sighting_of all.now) query.now }
{
    let serial = serial_within(query)?;
    let sightings = own_sightings(query, all)?;
    let issuer = Key32::new(query.issuer);
    let id = Identity { issuer, serial };
    Ok(said(store, index, &id, sightings))
}

/// Writes into each query of the store the number of its own answer.
pub fn ask_each(store: &[u8], index: &[u32], sightings: &[LentSighting], queries: &mut [LentQuery])
    ensures { (parts : List SealedFields) → IsOpened store.now index.now parts
        → queries.new ≡ map (answered (Ok parts) (map sighting_of sightings.now)) queries.old }
{
    for query in queries.iter_mut() {
        query.answer = verdict_answer(asked_one(store, index, sightings, query)).number;
    }
}

/// Writes the last moment that the newest part of the store covers of the log, or 0 where it has no range of it.
pub fn covered_until(store: &[u8], index: &[u32], log: &[u8; 32], until: &mut u64) -> u32
    ensures { (parts : List SealedFields) → IsOpened store.now index.now parts
        → CoversUntil (covered_to parts log.now) until.new result }
{
    match View::of(store, index).covered_until(&Key32::new(*log)) {
        Some(to) => {
            *until = to;
            numbers::DONE
        }
        None => {
            *until = 0;
            numbers::NOT_COVERED
        }
    }
}
