//! Queries from bytes.

ghost use Rattle.std.specs.Prelude.{◌≡◌, ◌≤◌, ℕ, List, length, map, All, Ok, IfOk, IfErr};
ghost use Rattle.octets_core.specs.Reading.{ReadsField, GivesUnless, octets};
ghost use Rattle.ident_core.specs.declared.bounds.TheConstants.{MAX_SERIAL};
ghost use Rattle.input_core.specs.Queries.{Query, as_query, sightings_in, QueryFits, QueriesFit};
ghost use Rattle.input_core.specs.QueryLayout.{sighting, sightings as sightings_layout, identity, query};
ghost use Rattle.input_core.specs.QueryLayout.{queries as queries_layout, body};
ghost use Rattle.input_core.specs.QueryText.{queries_text};
ghost use Rattle.input_core.specs.QueryReading.{Reads, queries_in, offset_in_queries};

use crate::fault::QueriesFault;
use crate::query::{Asked, MAX_QUERIES, MAX_SIGHTINGS, Sightings};
use ident_core::{Identity, MAX_SERIAL, Serial, Sighting};
use octets_core::{
    Cursor, Field, LayoutFault, Why, read_end, read_key, read_magic, read_u8, read_u32, read_u64,
};
use std::alloc::Global;

// The bytes of a sighting.
const SIGHTING: usize = 40;

// The fewest bytes of a query: of a serial of one octet, with one sighting.
const QUERY: usize = 75;

#[tactic(auto, unfolding(crate::specs::QueryLayout::sighting))]
fn sighting_of(cursor: &mut Cursor<'_>) -> Result<Sighting, LayoutFault>
    ensures { ReadsField (λ x. x) sighting cursor.old cursor.new result }
{
    let log = read_key(cursor, Field::SightingLog)?;
    let time = read_u64(cursor, Field::SightingTime, 0, u64::MAX)?;
    Ok(Sighting { log, time })
}

fn several_of(
    alloc: Global,
    cursor: &mut Cursor<'_>,
    count: u8,
) -> Result<Vec<Sighting>, QueriesFault>
    ensures { Reads (λ v. v.items) (sightings_layout count) cursor.old cursor.new result }
{
    let mut sightings = Vec::with_capacity(alloc, (count as usize).min(cursor.left() / SIGHTING))?;
    for _ in 0..count {
        let sighting = sighting_of(cursor)?;
        sightings.push(sighting)?;
    }
    Ok(sightings)
}

fn sightings_of(
    alloc: Global,
    cursor: &mut Cursor<'_>,
    count: u8,
) -> Result<Sightings, QueriesFault>
    ensures { Reads sightings_in (sightings_layout count) cursor.old cursor.new result }
{
    if count == 1 {
        let sighting = sighting_of(cursor)?;
        return Ok(Sightings::One([sighting]));
    }
    let sightings = several_of(alloc, cursor, count)?;
    Ok(Sightings::Several(sightings))
}

/// The serial of a certificate, of so many octets.
#[tactic(auto, unfolding(octets_core::specs::Layout::bytes_field))]
fn serial_of(cursor: &mut Cursor<'_>, width: u8) -> Result<Serial, LayoutFault>
    requires some { 1 ≤ width }
    requires few { width ≤ MAX_SERIAL }
    ensures { ReadsField (λ x. x) (octets Field.QuerySerial width) cursor.old cursor.new result }
{
    let at = cursor.at();
    let Ok(taken) = cursor.take(width as usize) else {
        return Err(LayoutFault::new(at, Field::QuerySerial, Why::Short));
    };
    match Serial::new(taken) {
        Ok(serial) => Ok(serial),
        Err(_) => Err(LayoutFault::new(at, Field::QuerySerial, Why::Value)),
    }
}

#[tactic(auto, unfolding(crate::specs::QueryLayout::identity))]
fn identity_of(cursor: &mut Cursor<'_>) -> Result<Identity, LayoutFault>
    ensures { ReadsField (λ x. x) identity cursor.old cursor.new result }
{
    let issuer = read_key(cursor, Field::QueryIssuer)?;
    let width = read_u8(cursor, Field::QueryLength, 1, MAX_SERIAL as u8)?;
    let serial = serial_of(cursor, width)?;
    Ok(Identity { issuer, serial })
}

#[tactic(auto, unfolding(crate::specs::QueryLayout::query))]
fn query_of(alloc: Global, cursor: &mut Cursor<'_>) -> Result<Asked, QueriesFault>
    ensures { Reads as_query query cursor.old cursor.new result }
{
    let identity = identity_of(cursor)?;
    let count = read_u8(cursor, Field::QuerySightings, 1, MAX_SIGHTINGS)?;
    let sightings = sightings_of(alloc, cursor, count)?;
    Ok(Asked {
        identity,
        sightings,
    })
}

fn queries_of(
    alloc: Global,
    cursor: &mut Cursor<'_>,
    count: u32,
) -> Result<Vec<Asked>, QueriesFault>
    ensures { Reads (λ v. map as_query v.items) (queries_layout count) cursor.old cursor.new result }
{
    let mut queries = Vec::with_capacity(alloc, (count as usize).min(cursor.left() / QUERY))?;
    for _ in 0..count {
        let query = query_of(alloc, cursor)?;
        queries.push(query)?;
    }
    Ok(queries)
}

#[tactic(auto, unfolding(crate::specs::QueryLayout::body))]
fn body_of(alloc: Global, cursor: &mut Cursor<'_>) -> Result<Vec<Asked>, QueriesFault>
    ensures { Reads (λ v. map as_query v.items) body cursor.old cursor.new result }
{
    read_magic(cursor, Field::QueryMagic, b"CLUBQRY1")?;
    let count = read_u32(cursor, Field::QueryCount, 0, MAX_QUERIES)?;
    queries_of(alloc, cursor, count)
}

#[tactic(auto, unfolding(crate::specs::QueryLayout::query_file))]
fn file_of(alloc: Global, bytes: &[u8]) -> Result<Vec<Asked>, QueriesFault>
    ensures { GivesUnless QueriesFault.NoMemory (λ v. map as_query v.items) result (queries_in bytes.now) }
{
    let mut cursor = Cursor::new(bytes);
    let queries = body_of(alloc, &mut cursor)?;
    read_end(&mut cursor)?;
    Ok(queries)
}

/// The queries of the bytes, all of them, in their order. An `Err` is the first field that is short or fails its test,
/// with its offset; a byte behind the last query is a fault of `end`. However great a count is, room is asked for no
/// more queries, and no more sightings, than the bytes behind it could hold.
pub fn read_queries(alloc: Global, bytes: &[u8]) -> Result<Vec<Asked>, QueriesFault>
    // Which queries or fault it is.
    ensures exact { GivesUnless QueriesFault.NoMemory (λ v. map as_query v.items) result (queries_in bytes.now) }
    // What is read is spelled so, each byte of it.
    ensures spelled { IfOk result (λ v. bytes.now ≡ queries_text (map as_query v.items)) }
    ensures fits { IfOk result (λ v. QueriesFit (map as_query v.items)) }
    // Each has 1 to 64 sightings, and a serial, keys and times that fit their fields.
    ensures each { IfOk result (λ v. All (λ a. QueryFits (as_query a)) v.items) }
    // The text of queries is read as them, unless memory is wanted.
    ensures only { (qs : List Query) → QueriesFit qs → bytes.now ≡ queries_text qs
        → GivesUnless QueriesFault.NoMemory (λ v. map as_query v.items) result (Ok qs) }
    ensures at { IfErr result (λ e. offset_in_queries e ≤ length bytes.now) }
{
    file_of(alloc, bytes)
}
