//! The files that are taken into memory and then read: queries and a ledger. The bytes are dropped once they are read.

ghost use Rattle.std.specs.Prelude.{map};
ghost use Rattle.outside_core.specs.Effects.{OnlyReads};
ghost use Rattle.input_core.specs.Queries.{as_query};
ghost use Rattle.input_core.specs.Readings.{queries_in as queries_of, ledger_in as ledger_of_file};
ghost use Rattle.outside_core.specs.Reads.{WhichFailed};
ghost use Rattle.input_core.specs.Inputs.{IsInput};

use crate::fault::FileFault;
use crate::input::read_up_to;
use crate::query::{Asked, MAX_QUERIES, MAX_SIGHTINGS};
use crate::query_reading::read_queries;
use ident_core::{MAX_IDENTITIES, MAX_ISSUERS, MAX_PARTS, MAX_RANGES, MAX_SERIAL};
use ledger_core::{Ledger, decode_ledger};
use outside_core::Depot;
use std::alloc::Global;

/// The most bytes of a range, of a ledger's part and of its identity.
const RANGE: usize = 48;

const PART: usize = 46 + MAX_RANGES * RANGE + MAX_ISSUERS * 32;

const IDENTITY: usize = 44 + MAX_SERIAL;

/// The most bytes of a ledger: it has a magic, a version, its counts, and a digest.
const LONGEST_LEDGER: usize = 46 + MAX_PARTS * PART + MAX_IDENTITIES * IDENTITY;

/// The most bytes of a query: it has an issuer and two counts.
const QUERY: usize = 34 + MAX_SERIAL + MAX_SIGHTINGS as usize * 40;

/// The most bytes of a query file: it has a magic and a count.
const LONGEST_QUERIES: usize = 12 + MAX_QUERIES as usize * QUERY;

/// The queries of the file of this name.
pub fn queries_in<D: Depot>(
    alloc: Global,
    depot: &mut D,
    name: &str,
) -> Result<Vec<Asked>, FileFault>
    ensures input { IsInput (D.files depot.old) (WhichFailed D.Depot depot.old depot.new) name.now
        queries_of (λ v. map as_query v.items) result }
    ensures only_reads { OnlyReads D.Depot depot.old depot.new }
{
    let bytes = read_up_to(alloc, depot, name, LONGEST_QUERIES)?;
    Ok(read_queries(alloc, &bytes)?)
}

/// The ledger of the file of this name.
pub fn ledger_in<D: Depot>(alloc: Global, depot: &mut D, name: &str) -> Result<Ledger, FileFault>
    ensures input { IsInput (D.files depot.old) (WhichFailed D.Depot depot.old depot.new) name.now
        ledger_of_file (λ l. l) result }
    ensures only_reads { OnlyReads D.Depot depot.old depot.new }
{
    let bytes = read_up_to(alloc, depot, name, LONGEST_LEDGER)?;
    Ok(decode_ledger(alloc, &bytes)?)
}
