//! Blocks of members, whole and by shards.

ghost use Rattle.std.specs.Prelude.{◌≡◌, ◌<◌, ◌≤◌};

use crate::parts::put_body;
use crate::rows::identity_of;
use card_core::{Body, Leaf, Sharded};
use equation_core::{EquationHash, Row, Sha256Rows, shard_of};
use ident_core::Identity;
use octets_core::{Key32, Steps};
use stage_core::{build_block, build_leaf};
use std::alloc::Global;
use std::fmt::Write;
use std::marker::Brand;
use std::sync::ledger::{Blank, Ledger};
use std::test::Fail;

/// Rows that choose the first column alone, at each seed. A tag is 1 where the serial's length is odd, else 0.
pub struct RowsByLength;

impl EquationHash for RowsByLength {
    ghost use Rattle.vectors.specs.RowsByLength.{row_by_length, row_by_length-is};

    ghost row_of = { λ _ stage seed id starts. row_by_length stage seed id starts };

    ghost formed = { λ _ stage seed id starts _ _ some _. row_by_length-is stage seed id starts some };

    fn row(&self, _stage: u8, _seed: u8, id: &Identity, _starts: u32) -> Row {
        let tag = (id.serial.bytes().len() % 2) as u16;
        let (start, coeff) = (0, 1);
        Row { start, coeff, tag }
    }
}

/// Certificates of an issuer of 32 bytes `11`, and of each whether it is revoked.
#[derive(Drop)]
struct Universe {
    ids: Vec<Identity>,
    revoked: Vec<bool>,
}

impl Universe {
    fn new(alloc: Global) -> Universe {
        let (ids, revoked) = (Vec::new(alloc), Vec::new(alloc));
        Universe { ids, revoked }
    }

    fn put(&mut self, serial: &[u8], revoked: bool) -> Result<(), Fail> {
        self.ids.push(identity_of(&[0x11; 32], serial)?)?;
        Ok(self.revoked.push(revoked)?)
    }

    /// Puts so many serials of four bytes, from 0 on, of which the first are revoked.
    fn put_counted(&mut self, count: u32, revoked: u32) -> Result<(), Fail> {
        for number in 0..count {
            self.put(&number.to_be_bytes(), number < revoked)?;
        }
        Ok(())
    }

    /// The leaf of those of a shard.
    fn leaf(&self, alloc: Global, shift: u8, shard: u8) -> Result<Leaf, Fail>
        requires { shift ≤ 8 }
    {
        let mut cut = Universe::new(alloc);
        for (id, revoked) in self.ids.iter().zip(self.revoked.iter()) {
            if shard_of(id, shift) == shard {
                cut.put(id.serial.bytes(), *revoked)?;
            }
        }
        if cut.revoked.len() != cut.ids.len() || cut.ids.len() > 4_194_304 {
            return Err(Fail::new("too many members"));
        }
        Ok(build_leaf(alloc, &Sha256Rows, &cut.ids, &cut.revoked)?)
    }
}

/// The members of words: `counted COUNT REVOKED`, or serials, of which those behind a `+` are revoked.
fn universe_of(alloc: Global, words: &[&str]) -> Result<Universe, Fail> {
    let mut of = Universe::new(alloc);
    if let ["counted", count, revoked] = words {
        of.put_counted(count.parse::<u32>()?, revoked.parse::<u32>()?)?;
        return Ok(of);
    }
    for word in words {
        let serial = hex::decode(alloc, word.trim_start_matches('+'))?;
        of.put(&serial, word.starts_with('+'))?;
    }
    Ok(of)
}

/// The block of members, or why there is none.
pub fn tell_block<H: EquationHash>(alloc: Global, hash: &H, of: &[&str]) -> Result<String, Fail> {
    let mut text = String::from_str(alloc, "block")?;
    let of = universe_of(alloc, of)?;
    if of.revoked.len() != of.ids.len() || of.ids.len() > 4_194_304 {
        return Err(Fail::new("too many members"));
    }
    match build_block(alloc, hash, Key32::new([0x11; 32]), &of.ids, &of.revoked) {
        Ok(block) => put_body(&mut text, &block.body)?,
        Err(fault) => write!(text, " {fault:?}")?,
    }
    Ok(text)
}

fn put_by<L: Ledger>(text: &mut String, body: &Body, of: &Universe, b: Blank) -> Result<(), Fail>
    requires name { b.name ≡ L.name }
    requires parts { b.parts ≡ L.parts }
    requires some { 0 < L.parts }
{
    let mut words: Steps<L> = Steps::new(b);
    for (place, id) in of.ids.iter().enumerate() {
        if body.tests_positive(&Sha256Rows, id, &mut words) {
            write!(text, " {place}")?;
        }
    }
    Ok(())
}

fn put_positive(text: &mut String, body: &Body, of: &Universe) -> Result<(), Fail> {
    put_by::<Brand>(text, body, of, Blank::new(1))
}

/// The places of the members that test positive: by the leaf of all, and by the leaves of four shards.
pub fn tell_asked(alloc: Global, words: &[&str]) -> Result<String, Fail> {
    let mut text = String::from_str(alloc, "leaf")?;
    let of = universe_of(alloc, words)?;
    put_positive(&mut text, &of.leaf(alloc, 0, 0)?.into(), &of)?;
    let mut leaves = Vec::new(alloc);
    for shard in 0..4u8 {
        leaves.push(of.leaf(alloc, 2, shard)?)?;
    }
    if leaves.len() != 4 {
        return Err(Fail::new("not four leaves"));
    }
    text.push_str("\nshards")?;
    put_positive(&mut text, &Body::Sharded(Sharded::new(2, leaves)), &of)?;
    Ok(text)
}
