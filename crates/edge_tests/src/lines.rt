//! Lines with numbers that no small file reaches, against docs/FORMATS.md, "Lines and statuses", and such a limit.

use crl_core::Crl;
use ident_core::{Identity, Range, Serial, Sighting, ranges_fit};
use job_core::{Job, JobCrl, Limits, What};
use line_core::{
    Base, layout_line, limit_line, rebased, rebased_without, reported, seeds_line, split,
};
use log_core::Entry;
use octets_core::{Field, Key32, LayoutFault, Why};
use outside_core::{MemorySink, write_all};
use std::test::Fail;
use universe_core::{AdmitFault, Counts, first};

const OFFSETS_AND_LIMITS: &str = "\
    layout 18446744073709551615 ledger.digest digest a b\n\
    limit serials 16777216 a.job\n\
    limit entries 4194304 a.job\n\
    limit identities 4194304 a.job\n\
    limit issuers 65535 a.job\n";

#[test]
fn offsets_and_limits(rt: HostRuntime) -> Result<(), Fail> {
    let fault = LayoutFault {
        at: u64::MAX,
        field: Field::LedgerDigest,
        why: Why::Digest,
    };
    let mut sink = MemorySink::new(rt.alloc());
    layout_line(fault, "a b").write(&mut sink)?;
    limit_line(What::Serials, 16_777_216, "a.job").write(&mut sink)?;
    limit_line(What::Entries, 4_194_304, "a.job").write(&mut sink)?;
    limit_line(What::Identities, 4_194_304, "a.job").write(&mut sink)?;
    limit_line(What::Issuers, 65_535, "a.job").write(&mut sink)?;
    assert_eq!(rt; sink.bytes(), OFFSETS_AND_LIMITS.as_bytes());
    Ok(())
}

const REPORTS: &str = "\
    epoch 18446744073709551615 part 63 issuers 1 universe 2 revoked 3 unread 4 \
    uncovered 5 unenrolled 6 late 7 accepted 4294967295\n\
    rebase epoch 18446744073709551615 issuers 65535 universe 4 revoked 3 pruned 4194304\n\
    rebase-without epoch 18446744073709551615 issuers 65535 universe 4 revoked 3 pruned 4194304 left 1024\n\
    split 65535 of 65536 epoch 18446744073709551615 issuers 65535 universe 4 revoked 3 pruned 4194304 left 4194303\n\
    seeds efefefefefefefefefefefefefefefefefefefefefefefefefefefefefefefef 1\n";

#[test]
fn reports(rt: HostRuntime) -> Result<(), Fail> {
    let counts = Counts {
        issuers: 1,
        universe: 2,
        revoked: 3,
        unread: 4,
        uncovered: 5,
        unenrolled: 6,
        late: 7,
        accepted: 4_294_967_295,
    };
    let base = Base {
        epoch: u64::MAX,
        issuers: 65_535,
        universe: 4,
        revoked: 3,
        pruned: 4_194_304,
    };
    let mut sink = MemorySink::new(rt.alloc());
    write_all(&mut sink, reported(u64::MAX, 63, &counts).text())?;
    write_all(&mut sink, rebased(&base).text())?;
    write_all(&mut sink, rebased_without(&base, 1_024).text())?;
    write_all(&mut sink, split(65_535, 65_536, &base, 4_194_303).text())?;
    write_all(&mut sink, seeds_line(&Key32::new([0xef; 32]), 1).text())?;
    assert_eq!(rt; sink.bytes(), REPORTS.as_bytes());
    Ok(())
}

// Three identities are accepted, and no more than two may be.
#[test]
fn one_identity_too_many(rt: HostRuntime) -> Result<(), Fail> {
    let issuer = Key32::new([0x22; 32]);
    let log = Key32::new([0xaa; 32]);
    let (from, to) = (0, 9);
    let crl = Crl {
        this_update: 0,
        next_update: None,
        serials: Vec::new(rt.alloc()),
    };
    let mut job = Job {
        epoch: 1,
        moment: 0,
        ranges: vec![in rt.alloc(); Range { log, from, to }]?,
        crls: Vec::new(rt.alloc()),
        entries: Vec::new(rt.alloc()),
    };
    job.crls.push(JobCrl {
        issuer,
        outcome: Ok(crl),
    })?;
    for number in 1..=3 {
        let serial = Serial::new(&[number])?;
        job.entries.push(Some(Entry {
            id: Identity { issuer, serial },
            sighting: Sighting { log, time: 0 },
            until: None,
        }))?;
    }
    let limits = Limits {
        identities: 2,
        ..Limits::PUBLISHED
    };
    let fits = job.ranges.len() <= 1024 && ranges_fit(&job.ranges);
    assert!(rt; fits && job.crls.len() <= 65_535 && job.entries.len() <= 4_194_304);
    let fault = first(rt.alloc(), &job, &limits).err();
    let (what, limit) = (What::Identities, 2);
    assert_eq!(rt; fault, Some(AdmitFault::TooMany { what, limit }));
    Ok(())
}
