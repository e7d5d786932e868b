//! The library for C: each export calls one function of `lending_core` and states its clause. No call keeps anything,
//! and none reads or writes but what it is lent. `bindings/c/clubcard.h` declares them.
#![tactic(auto)]

ghost use Rattle.std.specs.Prelude.{◌≡◌, ◌≢◌, ◌⊎◌, ◌<◌, ◌^◌, List, length, drop, map, Ok};
ghost use Rattle.octets_core.specs.Reading.{value_of};
ghost use Rattle.card_core.specs.declared.verdict.Verdict.{Verdict};
ghost use Rattle.part_text.specs.SealedFields.{SealedFields};
ghost use Rattle.part_codec.specs.Noting.{noted};
ghost use Rattle.store_core.specs.StoreLayout.{store as store_layout};
ghost use Rattle.view_core.specs.Covering.{covered_until as covered_to};
ghost use Rattle.view_core.specs.Index.{index_of};
ghost use Rattle.view_core.specs.Installing.{part_alone, installed, IsInstalled};
ghost use Rattle.view_core.specs.Opening.{opening, IsOpened};
ghost use Rattle.lending_core.specs.declared.facts.TheConstants.{OPENED_SIZE, PART_SIZE, INSTALL_SIZE};
ghost use Rattle.lending_core.specs.declared.numbers.TheConstants.{DONE, LAYOUT_VALUE, BAD_SIZE};
ghost use Rattle.lending_core.specs.Lent.{sighting_of, serial_of};
ghost use Rattle.lending_core.specs.Asking.{store_of, query_gives, query_cert_gives};
ghost use Rattle.lending_core.specs.Asking.{with_some, cert_reads, ask_gives, ask_cert_gives, place_gives};
ghost use Rattle.lending_core.specs.Facts.{opened_number, opened_facts, part_number, part_facts, install_number, install_facts};
ghost use Rattle.lending_core.specs.Replies.{answer_of, verdict_number, answered};
ghost use Rattle.lending_core.specs.Replies.{IsAnswer, AreFacts, AreAnswered, CoversUntil, IsPlaced};

use lending_core::{
    InstallFacts, LentQuery, LentSighting, OpenedFacts, PartFacts, StoreFacts, ask, ask_cert,
    ask_each, check_lent_part, covered_until, examine, index_words, install_lent, numbers,
    open_store, place, query, query_cert, query_each,
};
use std::alloc::Global;

/// The version of this interface: of the names, the parameters, the numbers and the structs.
const INTERFACE: u32 = 2;

/// The version of the interface that the library has.
#[unsafe(no_mangle)]
pub extern "C" fn clubcard_interface() -> u32
    ensures { result ≡ INTERFACE }
{
    INTERFACE
}

/// The verdict on a certificate by its issuer key's hash and its serial, which logs saw.
#[unsafe(no_mangle)]
pub extern "C" fn clubcard_query(
    alloc: Global,
    store: &[u8],
    issuer: &[u8; 32],
    serial: &[u8],
    sightings: &[LentSighting],
    at: &mut u64,
) -> u32
    ensures { IsAnswer (answer_of verdict_number
        (query_gives store.now issuer.now serial.now (map sighting_of sightings.now)))
        (record { number = result; at = at.new }) }
{
    let answer = query(alloc, store, issuer, serial, sightings);
    *at = answer.at;
    answer.number
}

/// The verdict on a certificate with its timestamps, by its issuer's certificate, both in DER.
#[unsafe(no_mangle)]
pub extern "C" fn clubcard_query_cert(
    alloc: Global,
    store: &[u8],
    cert: &[u8],
    issuer_cert: &[u8],
    at: &mut u64,
) -> u32
    ensures { IsAnswer (answer_of verdict_number (query_cert_gives store.now cert.now issuer_cert.now))
        (record { number = result; at = at.new }) }
{
    let answer = query_cert(alloc, store, cert, issuer_cert);
    *at = answer.at;
    answer.number
}

/// Writes into each query of one store the number of its own answer.
#[unsafe(no_mangle)]
pub extern "C" fn clubcard_query_each(
    alloc: Global,
    store: &[u8],
    sightings: &[LentSighting],
    queries: &mut [LentQuery],
    at: &mut u64,
) -> u32
    ensures { AreAnswered (store_of store.now) (map sighting_of sightings.now) queries.old queries.new
        (record { number = result; at = at.new }) }
{
    let answer = query_each(alloc, store, sightings, queries);
    *at = answer.at;
    answer.number
}

/// Tests a store's bytes, and writes how many parts it has and its newest epoch.
#[unsafe(no_mangle)]
pub extern "C" fn clubcard_examine(
    alloc: Global,
    store: &[u8],
    facts: &mut StoreFacts,
    at: &mut u64,
) -> u32
    ensures { AreFacts (store_of store.now) facts.new (record { number = result; at = at.new }) }
{
    let answer = examine(alloc, store, facts);
    *at = answer.at;
    answer.number
}

/// The verdict on a certificate by its issuer key's hash and its serial, which logs saw, of a store that was opened.
#[unsafe(no_mangle)]
pub extern "C" fn clubcard_ask(
    store: &[u8],
    index: &[u32],
    issuer: &[u8; 32],
    serial: &[u8],
    sightings: &[LentSighting],
) -> u32
    ensures opened { (parts : List SealedFields) → IsOpened store.now index.now parts
        → result ≡ (answer_of verdict_number (ask_gives parts issuer.now serial.now (map sighting_of sightings.now))).number }
    ensures other { (v : Verdict) × (result ≡ (answer_of verdict_number (with_some v (serial_of serial.now))).number) }
{
    ask(store, index, issuer, serial, sightings)
}

/// The verdict on a certificate with its timestamps, by its issuer's certificate, both in DER, of a store that was
/// opened.
#[unsafe(no_mangle)]
pub extern "C" fn clubcard_ask_cert(
    store: &[u8],
    index: &[u32],
    cert: &[u8],
    issuer_cert: &[u8],
) -> u32
    ensures opened { (parts : List SealedFields) → IsOpened store.now index.now parts
        → result ≡ (answer_of verdict_number (ask_cert_gives parts cert.now issuer_cert.now)).number }
    ensures other { (v : Verdict)
        × (result ≡ (answer_of verdict_number (with_some v (cert_reads cert.now issuer_cert.now))).number) }
{
    ask_cert(store, index, cert, issuer_cert)
}

/// Writes into each query of a store that was opened the number of its own answer.
#[unsafe(no_mangle)]
pub extern "C" fn clubcard_ask_each(
    store: &[u8],
    index: &[u32],
    sightings: &[LentSighting],
    queries: &mut [LentQuery],
) -> u32
    ensures queries { (parts : List SealedFields) → IsOpened store.now index.now parts
        → queries.new ≡ map (answered (Ok parts) (map sighting_of sightings.now)) queries.old }
    ensures done { result ≡ DONE }
{
    ask_each(store, index, sightings, queries);
    numbers::DONE
}

/// Writes the last moment that the newest part of a store that was opened covers of the log, or 0 where it has no range
/// of it.
#[unsafe(no_mangle)]
pub extern "C" fn clubcard_covered_until(
    store: &[u8],
    index: &[u32],
    log: &[u8; 32],
    until: &mut u64,
) -> u32
    ensures { (parts : List SealedFields) → IsOpened store.now index.now parts
        → CoversUntil (covered_to parts log.now) until.new result }
{
    covered_until(store, index, log, until)
}

/// Writes how many words the index of a store has.
#[unsafe(no_mangle)]
pub extern "C" fn clubcard_index_length(store: &[u8], words: &mut u64) -> u32
    ensures value { (parts : List SealedFields) → length store.now < 2 ^ 32 → value_of (store_layout store.now 0) ≡ Ok parts
        → (result ≡ DONE) × (words.new ≡ length (index_of parts)) }
    ensures other { (result ≡ DONE) ⊎ ((result ≡ LAYOUT_VALUE) × (words.new ≡ 0)) }
{
    index_words(store, words)
}

/// Tests a store's bytes, and writes its index and what is known of it.
#[unsafe(no_mangle)]
pub extern "C" fn clubcard_open(store: &[u8], index: &mut [u32], facts: &mut OpenedFacts) -> u32
    ensures told { facts.old.size ≡ OPENED_SIZE → (result ≡ opened_number (opening (length index.old) store.now))
        × (facts.new ≡ opened_facts (opening (length index.old) store.now)) }
    ensures bad_size { facts.old.size ≢ OPENED_SIZE
        → (result ≡ BAD_SIZE) × (facts.new ≡ facts.old) × (index.new ≡ index.old) }
    ensures index { result ≡ DONE → (parts : List SealedFields) → value_of (store_layout store.now 0) ≡ Ok parts
        → IsOpened store.now index.new parts }
    ensures len { length index.new ≡ length index.old }
{
    open_store(store, index, facts)
}

/// Tests a part's bytes, and writes what is known of it.
#[unsafe(no_mangle)]
pub extern "C" fn clubcard_check_part(part: &[u8], facts: &mut PartFacts) -> u32
    ensures told { facts.old.size ≡ PART_SIZE → (result ≡ part_number (noted (part_alone part.now 0)))
        × (facts.new ≡ part_facts (noted (part_alone part.now 0))) }
    ensures bad_size { facts.old.size ≢ PART_SIZE → (result ≡ BAD_SIZE) × (facts.new ≡ facts.old) }
{
    check_lent_part(part, facts)
}

/// Writes the store with a further part, and how many bytes that are.
#[unsafe(no_mangle)]
pub extern "C" fn clubcard_install(
    store: &[u8],
    part: &[u8],
    new_store: &mut [u8],
    facts: &mut InstallFacts,
) -> u32
    ensures told { facts.old.size ≡ INSTALL_SIZE
        → (result ≡ install_number (installed store.now part.now (length new_store.old)))
        × (facts.new ≡ install_facts (installed store.now part.now (length new_store.old))) }
    ensures bad_size { facts.old.size ≢ INSTALL_SIZE → (result ≡ BAD_SIZE) × (facts.new ≡ facts.old) }
    ensures text { result ≡ DONE → IsInstalled store.now part.now new_store.new facts.new.length }
    ensures behind { result ≡ DONE → drop facts.new.length new_store.new ≡ drop facts.new.length new_store.old }
    ensures kept { result ≢ DONE → new_store.new ≡ new_store.old }
    ensures len { length new_store.new ≡ length new_store.old }
{
    install_lent(store, part, new_store, facts)
}

/// Writes the place of a certificate, by its issuer key's hash and its serial, among so many.
#[unsafe(no_mangle)]
pub extern "C" fn clubcard_place(
    by: u32,
    issuer: &[u8; 32],
    serial: &[u8],
    count: u64,
    at: &mut u64,
) -> u32
    ensures { IsPlaced (place_gives by issuer.now serial.now count) at.new result }
{
    place(by, issuer, serial, count, at)
}
