//! What `build_block_wide` gives. How many threads it takes is not seen.

use crate::builds::{RowsAlike, identity};
use card_core::{Block, Part};
use equation_core::Sha256Rows;
use ident_core::{Head, Kind};
use octets_core::Key32;
use part_codec::seal;
use stage_core::{BlockFault, build_block_wide};
use std::alloc::Global;
use std::test::Fail;

const ISSUER: u8 = 0x11;

// The equations of the exact stage are the same but for their targets.
#[test]
fn wide_seeds_are_exhausted(rt: HostRuntime) -> Result<(), Fail> {
    let first = identity(ISSUER, b"\x00\x01")?;
    let ids = [first, identity(ISSUER, b"\x00\x02")?];
    let revoked = [true, false];
    let issuer = Key32::new([ISSUER; 32]);
    let fault = build_block_wide(&rt, rt.alloc(), &RowsAlike, issuer, &ids, &revoked).err();
    assert_eq!(&rt; fault, Some(BlockFault::SeedsExhausted { stage: 2 }));
    Ok(())
}

// The trailer of a snapshot of epoch 0 with no range and this block.
fn trailer_of(alloc: Global, block: Block) -> Result<Key32, Fail> {
    let head = Head::new(Kind::Snapshot, 0, Key32::new([0; 32]), Vec::new(alloc));
    Ok(seal(Part::new(head, vec![in alloc; block]?)).trailer())
}

// By tools/reference.py: 6 planes of 563 starts, and an exact stage of 1,406 starts.
const TRAILER: &str = "77b83e14c73b08b7517dadc5e10896dec182eb1af1ff09d4baa7f487d6ac57fe";

// Of 50,000 identities the first 500 are revoked, one in a hundred as in each block of a generated job of 200,000.
#[test]
fn a_wide_block_is_that_of_reference_py(rt: HostRuntime) -> Result<(), Fail> {
    let mut ids = Vec::new(rt.alloc());
    let mut revoked = Vec::new(rt.alloc());
    for number in 0..50_000u32 {
        ids.push(identity(ISSUER, &number.to_be_bytes())?)?;
        revoked.push(number < 500)?;
    }
    assert!(&rt; revoked.len() == ids.len() && ids.len() <= 4_194_304);
    let issuer = Key32::new([ISSUER; 32]);
    let block = build_block_wide(&rt, rt.alloc(), &Sha256Rows, issuer, &ids, &revoked)?;
    let trailer = trailer_of(rt.alloc(), block)?;
    let digits = hex::encode(rt.alloc(), trailer.bytes().as_slice())?;
    assert_eq!(&rt; digits.as_str(), TRAILER);
    Ok(())
}
