use lending_core::{
    Answer, LentQuery, LentSighting, StoreFacts, examine, query, query_cert, query_each,
};
use std::alloc::Global;
use std::test::Fail;

// A certificate of the serial 05, with one timestamp, of the log AA at T.
const CERT: &str = "\
    3058305602010530003000300030003000a34730453043060a2b06010401d679020402043504330031002f00aaaaaaaaaaaaaaaaaaaaaaaa\
    aaaaaaaaaaaaaaaaaaaaaaaaaaaaaaaaaaaaaaaa0000018bcfe56800000004030000";

// A certificate whose subjectPublicKeyInfo is 3000, and which has no extension.
const ISSUER_CERT: &str = "300f300d02010530003000300030003000";

// The SHA-256 of 3000.
const ISSUER: [u8; 32] = [
    0xe4, 0xf6, 0x0d, 0x0a, 0xa6, 0xd7, 0xf3, 0xd3, 0xb6, 0xa6, 0x49, 0x4b, 0x1c, 0x86, 0x1b, 0x99,
    0xf6, 0x49, 0xc6, 0xf9, 0xec, 0x51, 0xab, 0xaf, 0x20, 0x1b, 0x20, 0xf2, 0x97, 0x32, 0x7c, 0x95,
];

const T: u64 = 1_700_000_000_000;

const SEEN: LentSighting = LentSighting {
    log: [0xaa; 32],
    time: T,
};

// A part of epoch 1 that covers the log AA from T to T + 1000 and holds every certificate of the issuer as good, and
// one of epoch 2 that covers it to T + 2000 and holds each as revoked.
const FIRST: &str = "\
    434c5542434152440100000000000000000100000000000000000000000000000000000000000000000000000000000000000001aaaaaaaaaa\
    aaaaaaaaaaaaaaaaaaaaaaaaaaaaaaaaaaaaaaaaaaaaaaaaaaaaaa0000018bcfe568000000018bcfe56be800000001e4f60d0aa6d7f3d3b6a6\
    494b1c861b99f649c6f9ec51abaf201b20f297327c9500502a8aa5d82b3a6b1c4d96e6b86b0d49102d8f3265daaf7e6143331be871ae14";

const SECOND: &str = "\
    434c55424341524401010000000000000002502a8aa5d82b3a6b1c4d96e6b86b0d49102d8f3265daaf7e6143331be871ae140001aaaaaaaaaa\
    aaaaaaaaaaaaaaaaaaaaaaaaaaaaaaaaaaaaaaaaaaaaaaaaaaaaaa0000018bcfe568000000018bcfe56fd000000001e4f60d0aa6d7f3d3b6a6\
    494b1c861b99f649c6f9ec51abaf201b20f297327c95015fde499d4b4c3daebb4b5cf077556e700506115b7372afe99e568a561da67fd1";

// The bytes of a store of so many parts, which have these texts.
fn store_of(alloc: Global, count: u8, parts: &[&str]) -> Result<Vec<u8>, Fail> {
    let mut bytes = Vec::new(alloc);
    bytes.extend_from_slice(b"CLUBSTOR")?;
    bytes.extend_from_slice(&[1, count])?;
    for part in parts {
        bytes.extend_from_slice(&hex::decode(alloc, part)?)?;
    }
    Ok(bytes)
}

fn answer(number: u32) -> Answer {
    Answer { number, at: 0 }
}

#[test]
fn queries_are_answered(rt: HostRuntime) -> Result<(), Fail> {
    let alloc = rt.alloc();
    let first = store_of(alloc, 1, &[FIRST])?;
    let both = store_of(alloc, 2, &[FIRST, SECOND])?;
    let mut late = SEEN;
    late.time = T + 2001;
    for (store, issuer, serial, seen, number) in [
        (&first, &ISSUER, [5].as_slice(), [SEEN].as_slice(), 3),
        (&both, &ISSUER, [5].as_slice(), [SEEN].as_slice(), 4),
        (&both, &ISSUER, [5].as_slice(), [late, SEEN].as_slice(), 4),
        (&both, &ISSUER, [5].as_slice(), [late].as_slice(), 1),
        (&both, &[0x11; 32], [5].as_slice(), [SEEN].as_slice(), 2),
        (&both, &ISSUER, [].as_slice(), [SEEN].as_slice(), 48),
    ] {
        assert_eq!(rt; query(alloc, store, issuer, serial, seen), answer(number));
    }
    Ok(())
}

#[test]
fn certificates_are_answered(rt: HostRuntime) -> Result<(), Fail> {
    let alloc = rt.alloc();
    let first = store_of(alloc, 1, &[FIRST])?;
    let both = store_of(alloc, 2, &[FIRST, SECOND])?;
    let cert = hex::decode(alloc, CERT)?;
    let issuer = hex::decode(alloc, ISSUER_CERT)?;
    assert_eq!(rt; query_cert(alloc, &first, &cert, &issuer), answer(3));
    assert_eq!(rt; query_cert(alloc, &both, &cert, &issuer), answer(4));
    assert_eq!(rt; query_cert(alloc, &both, &issuer, &issuer), answer(65));
    assert_eq!(rt; query_cert(alloc, &both, &cert, &[]), answer(68));
    Ok(())
}

// A hundred queries of five kinds by turns: one that is revoked, and one each with a sighting that no part covers, an
// issuer that no part has, a serial of 33 octets, and a sighting behind the last.
#[test]
fn many_queries_are_answered(rt: HostRuntime) -> Result<(), Fail> {
    let alloc = rt.alloc();
    let both = store_of(alloc, 2, &[FIRST, SECOND])?;
    let mut late = SEEN;
    late.time = T + 2001;
    let mut kinds = [LentQuery {
        issuer: ISSUER,
        serial: [5; 32],
        serial_len: 1,
        first_sighting: 0,
        sightings: 1,
        answer: 0,
    }; 5];
    kinds[1].first_sighting = 1;
    kinds[2].issuer = [0x11; 32];
    kinds[3].serial_len = 33;
    kinds[4].first_sighting = 2;
    let mut queries = Vec::new(alloc);
    for place in 0..100 {
        queries.push(kinds[place % 5])?;
    }
    for (store, number, want) in [
        (both.as_slice(), 0, [4, 1, 2, 48, 49]),
        ([].as_slice(), 16, [16; 5]),
    ] {
        let answered = query_each(alloc, store, &[SEEN, late], &mut queries);
        assert_eq!(rt; answered, answer(number));
        for (place, query) in queries.iter().enumerate() {
            assert_eq!(rt; query.answer, want[place % 5], "query {place}");
        }
    }
    Ok(())
}

#[test]
fn stores_are_examined(rt: HostRuntime) -> Result<(), Fail> {
    let alloc = rt.alloc();
    let both = store_of(alloc, 2, &[FIRST, SECOND])?;
    let longer = store_of(alloc, 2, &[FIRST, SECOND, "00"])?;
    let swapped = store_of(alloc, 2, &[SECOND, FIRST])?;
    for (store, number, at, held) in [
        (&both, 0, 0, (2, 2)),
        (&longer, 17, 348, (0, 0)),
        (&swapped, 32, 0, (0, 0)),
    ] {
        let mut facts = StoreFacts {
            parts: 9,
            newest_epoch: 9,
        };
        assert_eq!(rt; examine(alloc, store, &mut facts), Answer { number, at });
        assert_eq!(rt; (facts.parts, facts.newest_epoch), held);
    }
    Ok(())
}
