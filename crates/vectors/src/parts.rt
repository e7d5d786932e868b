//! What blocks and parts say, with the words of their planes.

use crate::entries::put_fault;
use crate::systems::put_planes;
use card_core::{Body, Leaf, Mixed, Stage};
use part_codec::{PartFault, Sealed, decode_part, encode_part};
use std::alloc::Global;
use std::fmt::Write;
use std::test::Fail;

fn put_stage(text: &mut String, name: &str, stage: &Stage) -> Result<(), Fail> {
    let (seed, starts) = (stage.seed, stage.planes.starts());
    write!(text, " {name} {seed} {starts}")?;
    put_planes(text, &stage.planes)
}

fn put_mixed(text: &mut String, mixed: &Mixed) -> Result<(), Fail> {
    text.push_str(" mixed")?;
    if let Some(stage) = mixed.approx() {
        put_stage(text, "approx", stage)?;
    }
    put_stage(text, "exact", mixed.exact())
}

fn put_leaf(text: &mut String, leaf: &Leaf) -> Result<(), Fail> {
    match leaf {
        Leaf::Clean => text.push_str(" none")?,
        Leaf::Every => text.push_str(" all")?,
        Leaf::Mixed(mixed) => put_mixed(text, mixed)?,
    }
    Ok(())
}

/// What a block says: of each stage its seed, its starts and the words of its planes.
pub fn put_body(text: &mut String, body: &Body) -> Result<(), Fail> {
    match body {
        Body::Clean => text.push_str(" none")?,
        Body::Every => text.push_str(" all")?,
        Body::Mixed(mixed) => put_mixed(text, mixed)?,
        Body::Sharded(sharded) => {
            for leaf in sharded.leaves() {
                text.push_str("\nshard")?;
                put_leaf(text, leaf)?;
            }
        }
    }
    Ok(())
}

fn put_part(alloc: Global, text: &mut String, sealed: &Sealed) -> Result<(), Fail> {
    for block in sealed.part().blocks() {
        text.push_str("\nblock")?;
        put_body(text, &block.body)?;
    }
    let digits = hex::encode(alloc, &encode_part(alloc, sealed)?)?;
    write!(text, "\ntext {digits}")?;
    Ok(())
}

/// The part that the bytes begin with: how many of them it has, its blocks, and its text by `encode_part`; or the first
/// field that fails.
pub fn tell_part(alloc: Global, bytes: &[u8]) -> Result<String, Fail> {
    let mut text = String::from_str(alloc, "part")?;
    match decode_part(alloc, bytes) {
        Ok((sealed, len)) => {
            write!(text, " bytes {len}")?;
            put_part(alloc, &mut text, &sealed)?;
        }
        Err(PartFault::Layout(fault)) => put_fault(&mut text, fault)?,
        Err(PartFault::NoMemory) => return Err(Fail::new("no memory")),
    }
    Ok(text)
}
