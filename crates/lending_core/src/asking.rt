//! What is asked of a store that is lent.

ghost use Rattle.std.specs.Prelude.{◌≡◌, map, Ok, IfOk};
ghost use Rattle.octets_core.specs.Reading.{GivesUnless};
ghost use Rattle.lending_core.specs.Lent.{sighting_of};
ghost use Rattle.lending_core.specs.Asking.{store_of, issuer_of, query_gives, query_cert_gives, each_says};
ghost use Rattle.lending_core.specs.Replies.{answer_of, verdict_number, with_number};
ghost use Rattle.lending_core.specs.Replies.{IsAnswer, AreFacts, answered, AreAnswered};

use crate::fault::LentFault;
use crate::lent::{
    LentQuery, LentSighting, serial_from, serial_within, sightings_of, slice_within,
};
use crate::numbers;
use crate::replies::{Answer, StoreFacts, alone, facts_of, fault_answer, verdict_answer};
use ident_core::{Identity, Sighting};
use log_core::issuer_hash;
use octets_core::Key32;
use sct_core::bounds::MAX_CERTIFICATE;
use sct_core::{cert_serial, scts};
use std::alloc::Global;
use store_core::{Store, Verdict, decode_store};

/// The store that is lent.
fn lent_store(alloc: Global, bytes: &[u8]) -> Result<Store, LentFault>
    ensures { GivesUnless LentFault.NoMemory (λ s. s) result (store_of bytes.now) }
{
    Ok(decode_store(alloc, bytes)?)
}

fn queried(
    alloc: Global,
    store: &[u8],
    issuer: &[u8; 32],
    serial: &[u8],
    sightings: &[LentSighting],
) -> Result<Verdict, LentFault>
    ensures { GivesUnless LentFault.NoMemory (λ v. v) result
        (query_gives store.now issuer.now serial.now (map sighting_of sightings.now)) }
{
    let store = lent_store(alloc, store)?;
    let serial = serial_from(serial)?;
    let sightings = sightings_of(alloc, sightings)?;
    let issuer = Key32::new(*issuer);
    let id = Identity { issuer, serial };
    Ok(store.says(&id, &sightings))
}

/// The verdict on the certificate with this issuer key's hash and this serial, which logs saw. The first fault is that
/// of the store, and then that of the serial.
pub fn query(
    alloc: Global,
    store: &[u8],
    issuer: &[u8; 32],
    serial: &[u8],
    sightings: &[LentSighting],
) -> Answer
    ensures { IsAnswer (answer_of verdict_number
        (query_gives store.now issuer.now serial.now (map sighting_of sightings.now))) result }
{
    verdict_answer(queried(alloc, store, issuer, serial, sightings))
}

/// The hash of the key of an issuer's certificate.
pub(crate) fn issuer_in(cert: &[u8]) -> Result<Key32, LentFault>
    ensures { result ≡ issuer_of cert.now }
{
    if cert.len() > MAX_CERTIFICATE {
        return Err(LentFault::BadIssuerCert);
    }
    issuer_hash(cert).or(Err(LentFault::BadIssuerCert))
}

fn queried_cert(
    alloc: Global,
    store: &[u8],
    cert: &[u8],
    issuer_cert: &[u8],
) -> Result<Verdict, LentFault>
    ensures { GivesUnless LentFault.NoMemory (λ v. v) result (query_cert_gives store.now cert.now issuer_cert.now) }
{
    let store = lent_store(alloc, store)?;
    let serial = cert_serial(cert)?;
    let scts = scts(cert)?;
    let issuer = issuer_in(issuer_cert)?;
    let id = Identity { issuer, serial };
    Ok(store.says(&id, scts.sightings()))
}

/// The verdict on a certificate with its timestamps, by its issuer's certificate, both in DER. The first fault is that
/// of the store, then that of the certificate, and then that of its issuer's.
pub fn query_cert(alloc: Global, store: &[u8], cert: &[u8], issuer_cert: &[u8]) -> Answer
    ensures { IsAnswer (answer_of verdict_number (query_cert_gives store.now cert.now issuer_cert.now)) result }
{
    verdict_answer(queried_cert(alloc, store, cert, issuer_cert))
}

/// How many parts a store has, and its newest epoch. Where the bytes are no store, both are 0.
pub fn examine(alloc: Global, store: &[u8], facts: &mut StoreFacts) -> Answer
    ensures { AreFacts (store_of store.now) facts.new result }
{
    match lent_store(alloc, store) {
        Ok(store) => {
            *facts = facts_of(&store);
            alone(numbers::DONE)
        }
        Err(fault) => {
            *facts = StoreFacts {
                parts: 0,
                newest_epoch: 0,
            };
            fault_answer(fault)
        }
    }
}

/// The verdict on one of many queries.
fn verdict_on_one(store: &Store, all: &[Sighting], query: &LentQuery) -> Result<Verdict, LentFault>
    ensures { result ≡ each_says store.now all.now query.now }
{
    let serial = serial_within(query)?;
    let sightings = slice_within(query, all)?;
    let issuer = Key32::new(query.issuer);
    let id = Identity { issuer, serial };
    Ok(store.says(&id, sightings))
}

/// Writes into each query its answer.
fn answer_each(store: &Store, all: &[Sighting], queries: &mut [LentQuery])
    ensures { queries.new ≡ map (answered (Ok store.now) all.now) queries.old }
{
    for query in queries.iter_mut() {
        query.answer = verdict_answer(verdict_on_one(store, all, query)).number;
    }
}

/// Writes the number into each query.
fn number_each(queries: &mut [LentQuery], number: u32)
    ensures { queries.new ≡ map (with_number number) queries.old }
{
    for query in queries.iter_mut() {
        query.answer = number;
    }
}

/// The store and the sightings that are lent.
fn lent_for_all(
    alloc: Global,
    store: &[u8],
    sightings: &[LentSighting],
) -> Result<(Store, Vec<Sighting>), LentFault>
    ensures store { GivesUnless LentFault.NoMemory (λ x. x.0) result (store_of store.now) }
    ensures sightings { IfOk result (λ x. x.1.items ≡ map sighting_of sightings.now) }
{
    let store = lent_store(alloc, store)?;
    let sightings = sightings_of(alloc, sightings)?;
    Ok((store, sightings))
}

/// Writes into each query of the store the number of its own answer. Where the bytes are no store, that is the number
/// of their fault, which is answered too.
pub fn query_each(
    alloc: Global,
    store: &[u8],
    sightings: &[LentSighting],
    queries: &mut [LentQuery],
) -> Answer
    ensures { AreAnswered (store_of store.now) (map sighting_of sightings.now) queries.old queries.new result }
{
    match lent_for_all(alloc, store, sightings) {
        Ok((store, all)) => {
            answer_each(&store, &all, queries);
            alone(numbers::DONE)
        }
        Err(fault) => {
            let answer = fault_answer(fault);
            number_each(queries, answer.number);
            answer
        }
    }
}
