//! The job as it is written.

ghost use Rattle.std.specs.Prelude.{◌≡◌, ◌≤◌, ◌++◌, length, IfOk, OnOk, OnErr};
ghost use Rattle.ident_core.specs.declared.bounds.TheConstants.{MAX_SAMPLE};
ghost use Rattle.outside_core.specs.Files.{extending, Torn, KeepsOthers, Rose, putting};
ghost use Rattle.outside_core.specs.Effects.{OnlyWrites};
ghost use Rattle.sample_core.specs.Sample.{sample_text, sample_revoked};
ghost use Rattle.sample_core.specs.Parts.{head_text, entries_text};
ghost use Rattle.sample_core.specs.Writing.{Moved, IsCut};
ghost use Rattle.sample_core.specs.Preparing.{IsPrepared};

use crate::buffer::Buffer;
use crate::crl::is_listed;
use crate::digests::Keys;
use crate::entry::{RECORD, record_of};
use crate::head::make_head;
use octets_core::NoMemory;
use outside_core::{Depot, Failed, append_all};
use std::alloc::Global;
use std::marker::Model;

/// How many bytes a depot is offered together.
const PIECE: usize = 4096;

fn count_listed(count: u32) -> u32
    ensures { result ≡ sample_revoked count }
{
    let mut listed = 0;
    for i in 0..count {
        listed += is_listed(i) as u32;
    }
    listed
}

/// What the writing needs in memory, and how many bytes it comes to.
#[derive(Drop)]
struct Prepared {
    /// What stands before the entries, but for the bytes that make no whole piece.
    front: Vec<u8>,
    /// These bytes.
    buffer: Buffer,
    /// The bytes of the whole job.
    bytes: u64,
}

fn prepare(alloc: Global, keys: &Keys, count: u32) -> Result<Prepared, NoMemory>
    requires { (1 ≤ count) × (count ≤ MAX_SAMPLE) }
    ensures { IfOk result (IsPrepared keys.now count) }
{
    let mut front = make_head(alloc, keys, count)?;
    let bytes = front.len() as u64 + RECORD as u64 * count as u64 + 1;
    let whole = front.len() - front.len() % PIECE;
    let buffer = Buffer::new(alloc, &front[whole..])?;
    front.truncate(whole);
    Ok(Prepared {
        front,
        buffer,
        bytes,
    })
}

fn put_entries<D: Depot>(
    buffer: &mut Buffer,
    depot: &mut D,
    name: &str,
    keys: &Keys,
    count: u32,
) -> Result<(), Failed>
    ensures ok { OnOk result (Moved (D.files depot.old) (D.files depot.new) name.now buffer.old (entries_text keys.now count) buffer.new) }
    ensures err { OnErr result (Torn (D.files depot.old) (D.files depot.new) name.now (buffer.old ++ entries_text keys.now count)) }
    ensures others { KeepsOthers (D.files depot.old) (D.files depot.new) name.now }
    ensures cause { OnErr result (Rose (D.write_faults depot.old) (D.write_faults depot.new)) }
    ensures only_writes { OnlyWrites D.Depot depot.old depot.new }
{
    for i in 0..count {
        buffer.put(depot, name, &record_of(keys, i))?;
    }
    Ok(())
}

/// Adds the text behind what the name holds.
fn append_sample<D: Depot>(
    prepared: &mut Prepared,
    depot: &mut D,
    name: &str,
    keys: &Keys,
    count: u32,
) -> Result<(), Failed>
    requires { IsPrepared keys.now count prepared.old }
    ensures ok { OnOk result (D.files depot.new ≡ extending (D.files depot.old) name.now (sample_text keys.now count)) }
    ensures err { OnErr result (Torn (D.files depot.old) (D.files depot.new) name.now (sample_text keys.now count)) }
    ensures others { KeepsOthers (D.files depot.old) (D.files depot.new) name.now }
    ensures cause { OnErr result (Rose (D.write_faults depot.old) (D.write_faults depot.new)) }
    ensures only_writes { OnlyWrites D.Depot depot.old depot.new }
{
    append_all(depot, name, prepared.front.as_slice())?;
    put_entries(&mut prepared.buffer, depot, name, keys, count)?;
    prepared.buffer.put(depot, name, &[0])?;
    prepared.buffer.write_rest(depot, name)
}

fn write_prepared<D: Depot>(
    prepared: &mut Prepared,
    depot: &mut D,
    name: &str,
    keys: &Keys,
    count: u32,
) -> Result<(), Failed>
    requires { IsPrepared keys.now count prepared.old }
    ensures ok { OnOk result (D.files depot.new ≡ putting (D.files depot.old) name.now (sample_text keys.now count)) }
    ensures err { OnErr result (IsCut (D.files depot.old) (D.files depot.new) name.now (sample_text keys.now count)) }
    ensures others { KeepsOthers (D.files depot.old) (D.files depot.new) name.now }
    ensures cause { OnErr result (Rose (D.write_faults depot.old) (D.write_faults depot.new)) }
    ensures only_writes { OnlyWrites D.Depot depot.old depot.new }
{
    depot.begin(name)?;
    append_sample(prepared, depot, name, keys, count)
}

/// A job that is ready to be written: all memory that the writing needs is taken.
#[derive(Drop)]
pub struct SampleJob {
    keys: Keys,
    count: u32,
    revoked: u32,
    prepared: Prepared,
}

impl Model for SampleJob {
    ghost use Rattle.std.specs.Prelude.{◌≡◌, ◌≤◌};
    ghost use Rattle.sample_core.specs.SampleFields.{SampleFields};
    ghost use Rattle.sample_core.specs.Sample.{sample_revoked};
    ghost use Rattle.sample_core.specs.Preparing.{IsPrepared};

    ghost Value = { SampleFields };

    ghost view = { λ j. record { number = j.keys; count = j.count } };

    ghost invariant = { λ j. (j.revoked ≡ sample_revoked j.count) × IsPrepared j.keys j.count j.prepared };
}

impl SampleJob {
    /// The job of the number with so many entries. Memory is taken for its CRLs and a buffer.
    pub fn new(alloc: Global, number: u64, count: u32) -> Result<SampleJob, NoMemory>
        requires { (1 ≤ count) × (count ≤ MAX_SAMPLE) }
        ensures { IfOk result (λ j. j ≡ record { number = number; count = count }) }
    {
        let keys = Keys::new(number);
        let prepared = prepare(alloc, &keys, count)?;
        Ok(SampleJob {
            keys,
            count,
            revoked: count_listed(count),
            prepared,
        })
    }

    /// How many entries the CRLs list.
    pub fn revoked(&self) -> u32
        ensures { result ≡ sample_revoked self.now.count }
    {
        self.revoked
    }

    /// How many bytes the job has.
    pub fn bytes(&self) -> u64
        ensures { result ≡ length (sample_text self.now.number self.now.count) }
    {
        self.prepared.bytes
    }

    /// Writes the job to the file of this name, which is begun once, as the job is made. No memory is taken.
    pub fn write<D: Depot>(self, depot: &mut D, name: &str) -> Result<(), Failed>
        ensures ok { OnOk result (D.files depot.new ≡ putting (D.files depot.old) name.now (sample_text self.number self.count)) }
        ensures cut { OnErr result (IsCut (D.files depot.old) (D.files depot.new) name.now (sample_text self.number self.count)) }
        ensures cause { OnErr result (Rose (D.write_faults depot.old) (D.write_faults depot.new)) }
        ensures others { KeepsOthers (D.files depot.old) (D.files depot.new) name.now }
        ensures only_writes { OnlyWrites D.Depot depot.old depot.new }
    {
        let SampleJob {
            keys,
            count,
            prepared,
            ..
        } = self;
        let mut prepared = prepared;
        write_prepared(&mut prepared, depot, name, &keys, count)
    }
}
