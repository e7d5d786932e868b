//! Jobs that are cut to places.

ghost use Rattle.std.specs.Prelude.{◌≡◌, ◌≢◌, Ok, Err, IfOk, IfErr};
ghost use Rattle.job_core.specs.JobText.{JobContents};
ghost use Rattle.gather_core.specs.Raw.{raw_job};
ghost use Rattle.piece_core.specs.Pieces.{AreOf};

use crate::issuers::IssuerPlaces;
use crate::record::place_of;
use crate::texts::{begun_texts, put};
use job_core::{JobFault, JobRecords, Limits};
use place_core::{By, PlaceCount};
use std::alloc::Global;

/// A job's text, cut to each place.
#[derive(Debug, Drop)]
pub struct Pieces {
    /// The text of each place's job, in the order of the places.
    pub texts: Vec<Vec<u8>>,
    /// How many entries the job has that was cut, and how many bytes.
    pub entries: u64,
    pub bytes: u64,
}

/// The job of the bytes, cut to so many places by issuers or identities; or the first fault in their order: a field
/// that is short or fails its test, or one thing more than a published limit. CRLs and entries are kept as they stand.
/// The answer is never `ReadFault`.
pub fn cut_text(alloc: Global, bytes: &[u8], by: By, count: PlaceCount) -> Result<Pieces, JobFault>
    ensures ok { IfOk result (λ pieces. (j : JobContents) × (raw_job Limits.PUBLISHED bytes.now ≡ Ok j)
        × AreOf by count j pieces) }
    ensures err { IfErr result (λ e. e ≢ JobFault.NoMemory → raw_job Limits.PUBLISHED bytes.now ≡ Err e) }
    ensures no_read { IfErr result (λ e. e ≢ JobFault.ReadFault) }
{
    let (mut records, _) = JobRecords::new(bytes, Limits::PUBLISHED)?;
    let mut texts = begun_texts(alloc, count, records.passed())?;
    let mut issuers = IssuerPlaces::new(count);
    loop {
        let start = records.passed().len();
        match records.next() {
            Ok(Some(record)) => {
                let place = place_of(by, count, &record, &mut issuers);
                let (_, text) = records.passed().split_at(start);
                put(&mut texts, place, text)?;
            }
            Ok(None) => {
                put(&mut texts, None, &[0])?;
                return Ok(Pieces {
                    texts,
                    entries: records.entries(),
                    bytes: bytes.len() as u64,
                });
            }
            Err(fault) => return Err(fault),
        }
    }
}
