//! A first job of one issuer with many certificates and of many issuers with few.

use crl_core::Crl;
use ident_core::{Identity, Range, Serial, Sighting};
use job_core::{Job, JobCrl};
use log_core::Entry;
use octets_core::{Key32, NoMemory};
use std::alloc::Global;

const LOG: [u8; 32] = [0xaa; 32];

/// How many certificates the first issuer has, how many issuers there are besides, and how many each of those has.
#[derive(Clone, Copy)]
pub struct Sizes {
    pub large: u32,
    pub many: u32,
    pub small: u32,
}

// The digits of the number stand in front, so that issuers ascend with their numbers.
fn issuer_of(number: u32) -> Key32 {
    let mut bytes = [0; 32];
    bytes[..4].copy_from_slice(&number.to_be_bytes());
    Key32::new(bytes)
}

// Enters an issuer's certificates into the job. One in a hundred is revoked.
fn enroll(alloc: Global, job: &mut Job, issuer: Key32, count: u32) -> Result<(), NoMemory> {
    let log = Key32::new(LOG);
    let mut serials = Vec::new(alloc);
    for number in 0..count {
        let Ok(serial) = Serial::new(&number.to_be_bytes()) else {
            continue;
        };
        if number % 100 == 0 {
            serials.push(serial)?;
        }
        let entry = Entry {
            id: Identity { issuer, serial },
            sighting: Sighting { log, time: 0 },
            until: None,
        };
        job.entries.push(Some(entry))?;
    }
    job.crls.push(JobCrl {
        issuer,
        outcome: Ok(Crl {
            this_update: 0,
            next_update: None,
            serials,
        }),
    })?;
    Ok(())
}

/// The job of these sizes.
pub(crate) fn job_of(alloc: Global, sizes: Sizes) -> Result<Job, NoMemory> {
    let mut job = Job {
        epoch: 1,
        moment: 0,
        ranges: Vec::new(alloc),
        crls: Vec::new(alloc),
        entries: Vec::new(alloc),
    };
    let log = Key32::new(LOG);
    job.ranges.push(Range {
        log,
        from: 0,
        to: 9,
    })?;
    enroll(alloc, &mut job, issuer_of(0), sizes.large)?;
    for number in 0..sizes.many {
        enroll(
            alloc,
            &mut job,
            issuer_of(number.saturating_add(1)),
            sizes.small,
        )?;
    }
    Ok(job)
}
