//! The answers of calls: numbers, and where a store's field is at fault.

ghost use Rattle.std.specs.Prelude.{◌≡◌, Result};
ghost use Rattle.octets_core.specs.Reading.{GivesUnless};
ghost use Rattle.lending_core.specs.Replies.{answer_of, fault_answer as answer_of_fault, verdict_number as number_of_verdict};
ghost use Rattle.lending_core.specs.Replies.{why_number as number_of_why, refusal_number as number_of_refusal};
ghost use Rattle.lending_core.specs.Replies.{cert_number as number_of_cert, facts_of as facts_by, IsAnswer};

use crate::fault::LentFault;
use crate::numbers;
use octets_core::Why;
use sct_core::CertFault;
use store_core::{Refusal, Store, Verdict};

/// What a call answers.
#[derive(Clone, Copy, Debug, PartialEq, Eq)]
pub struct Answer {
    /// One of `numbers`.
    pub number: u32,
    /// Where a field of the store is at fault, the offset of its first byte; else 0.
    pub at: u64,
}

/// What a store holds.
#[repr(C)]
#[derive(Clone, Copy, Debug, PartialEq, Eq)]
pub struct StoreFacts {
    /// How many parts.
    pub parts: u64,
    /// The epoch of the newest one.
    pub newest_epoch: u64,
}

fn verdict_number(verdict: Verdict) -> u32
    ensures { result ≡ number_of_verdict verdict }
{
    match verdict {
        Verdict::NotCovered => numbers::NOT_COVERED,
        Verdict::NotEnrolled => numbers::NOT_ENROLLED,
        Verdict::Good => numbers::GOOD,
        Verdict::Revoked => numbers::REVOKED,
    }
}

fn why_number(why: Why) -> u32
    ensures { result ≡ number_of_why why }
{
    match why {
        Why::Short => numbers::LAYOUT_SHORT,
        Why::Value => numbers::LAYOUT_VALUE,
        Why::Digest => numbers::LAYOUT_DIGEST,
    }
}

fn refusal_number(why: Refusal) -> u32
    ensures { result ≡ number_of_refusal why }
{
    match why {
        Refusal::NotDelta => numbers::NOT_DELTA,
        Refusal::WrongParent { held: _, given: _ } => numbers::WRONG_PARENT,
        Refusal::OldEpoch { held: _, given: _ } => numbers::OLD_EPOCH,
        Refusal::CoverageShrinks { log: _ } => numbers::COVERAGE_SHRINKS,
        Refusal::Full => numbers::CHAIN_FULL,
    }
}

fn cert_number(fault: CertFault) -> u32
    ensures { result ≡ number_of_cert fault }
{
    match fault {
        CertFault::Malformed => numbers::CERT_MALFORMED,
        CertFault::NoScts => numbers::CERT_NO_SCTS,
        CertFault::BadScts => numbers::CERT_BAD_SCTS,
        CertFault::TooManyScts => numbers::CERT_TOO_MANY_SCTS,
    }
}

/// The answer of this number alone.
pub(crate) fn alone(number: u32) -> Answer
    ensures { result ≡ record { number = number; at = 0 } }
{
    Answer { number, at: 0 }
}

pub(crate) fn fault_answer(fault: LentFault) -> Answer
    ensures { result ≡ answer_of_fault fault }
{
    match fault {
        LentFault::Layout(fault) => Answer {
            number: why_number(fault.why),
            at: fault.at,
        },
        LentFault::NotSnapshot => alone(numbers::NOT_SNAPSHOT),
        LentFault::Chain(why) => alone(refusal_number(why)),
        LentFault::BadSerial => alone(numbers::BAD_SERIAL),
        LentFault::BadSightings => alone(numbers::BAD_SIGHTINGS),
        LentFault::BadPlaces => alone(numbers::BAD_PLACES),
        LentFault::BadCert(fault) => alone(cert_number(fault)),
        LentFault::BadIssuerCert => alone(numbers::ISSUER_CERT_MALFORMED),
        LentFault::NoMemory => alone(numbers::NO_MEMORY),
    }
}

/// The answer of a verdict, or of a fault.
pub(crate) fn verdict_answer(given: Result<Verdict, LentFault>) -> Answer
    ensures value { result ≡ answer_of number_of_verdict given }
    ensures stands { (o : Result Verdict LentFault) → GivesUnless LentFault.NoMemory (λ v. v) given o
        → IsAnswer (answer_of number_of_verdict o) result }
{
    match given {
        Ok(verdict) => alone(verdict_number(verdict)),
        Err(fault) => fault_answer(fault),
    }
}

/// What a store holds.
pub(crate) fn facts_of(store: &Store) -> StoreFacts
    ensures { result ≡ facts_by store.now }
{
    StoreFacts {
        parts: store.parts().len() as u64,
        newest_epoch: store.newest_epoch(),
    }
}
