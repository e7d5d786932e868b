//! The text of a part, written field by field to an output.

ghost use Rattle.std.specs.Prelude.{◌≡◌, ◌<◌, ◌++◌, length, slice_index, OnOk, flat_map, All};
ghost use Rattle.std.specs.Int.{w8, to_be_bytes};
ghost use Rattle.equation_core.specs.Sizes.{words_for as words_of};
ghost use Rattle.ident_core.specs.RangeText.{range_text, RangeFits};
ghost use Rattle.part_text.specs.Output.{Wrote};
ghost use Rattle.part_text.specs.PartLayout.{is_sharded as is_sharded_body, some_sharded as some_sharded_of};
ghost use Rattle.part_text.specs.PartText.{kind_number, head_text, mode_of, planes_text, stage_text, width_of, approx_text};
ghost use Rattle.part_text.specs.PartText.{mixed_text, leaf_mode, leaf_text, shard_leaf_text, sharded_text, body_text};
ghost use Rattle.part_text.specs.PartText.{block_text, version_of, unsealed_text};
ghost use Rattle.part_text.specs.PlaneBytes.{bytes_of_columns};
ghost use Rattle.part_text.specs.Fitting.{PlanesFit, StageFits, FirstFits, MixedFits, LeafFits, ShardsFit, BodyFits};
ghost use Rattle.part_text.specs.Fitting.{BlockFits, FitsHead, FitsPart};

use crate::output::Output;
use card_core::{Block, Body, Leaf, Mixed, Part, Sharded, Stage};
use equation_core::words_for;
use ident_core::{Head, Kind, Range};
use octets_core::Steps;
use ribbon_core::Planes;
use std::marker::Brand;
use std::sync::ledger::{Blank, Ledger};

// The number of a part's kind in its layout.
fn kind_byte(kind: Kind) -> u8
    ensures { result ≡ kind_number kind }
{
    match kind {
        Kind::Snapshot => 0,
        Kind::Delta => 1,
    }
}

// The number of a block's mode in its layout.
fn mode_byte(body: &Body) -> u8
    ensures { result ≡ mode_of body.now }
{
    match body {
        Body::Clean => 0,
        Body::Every => 1,
        Body::Mixed(_) => 2,
        Body::Sharded(_) => 3,
    }
}

// The number of a shard's mode in its layout.
fn leaf_mode_byte(leaf: &Leaf) -> u8
    ensures { result ≡ leaf_mode leaf.now }
{
    match leaf {
        Leaf::Clean => 0,
        Leaf::Every => 1,
        Leaf::Mixed(_) => 2,
    }
}

fn is_sharded(body: &Body) -> bool
    ensures { result ≡ is_sharded_body body.now }
{
    match body {
        Body::Sharded(_) => true,
        _ => false,
    }
}

fn some_sharded(blocks: &[Block]) -> bool
    ensures { result ≡ some_sharded_of blocks.now }
{
    blocks.iter().any(|block| is_sharded(&block.body))
}

/// The version in which a part with these blocks is written: 2 exactly where a block is sharded.
pub fn version_of(blocks: &[Block]) -> u8
    ensures { result ≡ version_of blocks.now }
{
    match some_sharded(blocks) {
        true => 2,
        false => 1,
    }
}

fn put_u8<O: Output>(out: &mut O, n: u8) -> Result<(), O::Fault>
    ensures { OnOk result (Wrote O.given out.old out.new (to_be_bytes w8 n)) }
{
    out.put(&n.to_be_bytes())
}

fn put_range<O: Output>(out: &mut O, range: &Range) -> Result<(), O::Fault>
    ensures text { OnOk result (Wrote O.given out.old out.new (range_text range.now)) }
    ensures fits { OnOk result (RangeFits range.now) }
{
    out.put(range.log.bytes())?;
    out.put(&range.from.to_be_bytes())?;
    out.put(&range.to.to_be_bytes())?;
    Ok(())
}

fn put_ranges<O: Output>(out: &mut O, ranges: &[Range]) -> Result<(), O::Fault>
    ensures text { OnOk result (Wrote O.given out.old out.new (flat_map range_text ranges.now)) }
    ensures fits { OnOk result (All RangeFits ranges.now) }
{
    for range in ranges {
        put_range(out, range)?;
    }
    Ok(())
}

#[tactic(auto, unfolding(crate::specs::PartText::head_text))]
fn put_head<O: Output>(out: &mut O, version: u8, head: &Head) -> Result<(), O::Fault>
    ensures text { OnOk result (Wrote O.given out.old out.new (head_text version head.now)) }
    ensures fits { OnOk result (FitsHead head.now) }
{
    out.put(b"CLUBCARD")?;
    put_u8(out, version)?;
    put_u8(out, kind_byte(head.kind()))?;
    out.put(&head.epoch().to_be_bytes())?;
    out.put(head.parent().bytes())?;
    let ranges = head.ranges();
    out.put(&(ranges.len() as u16).to_be_bytes())?;
    put_ranges(out, ranges)?;
    Ok(())
}

#[tactic(auto, unfolding(crate::specs::PlaneBytes::bytes_of_columns))]
fn put_plane<O: Output, L: Ledger>(
    out: &mut O,
    planes: &Planes,
    plane: u8,
    steps: &mut Steps<L>,
) -> Result<(), O::Fault>
    requires { plane < length planes.now.columns }
    ensures { OnOk result
        (Wrote O.given out.old out.new
        (bytes_of_columns (words_of planes.now.starts) (slice_index planes.now.columns plane))) }
{
    for i in 0..words_for(planes.starts()) {
        let word = planes.word(plane, i, steps);
        out.put(&word.to_be_bytes())?;
    }
    Ok(())
}

// The words that are read are counted, and nothing reads the count.
#[tactic(auto, unfolding(crate::specs::PartText::planes_text))]
fn put_planes<O: Output, L: Ledger>(
    out: &mut O,
    planes: &Planes,
    blank: Blank,
) -> Result<(), O::Fault>
    requires name { blank.name ≡ L.name }
    requires parts { blank.parts ≡ L.parts }
    requires some { 0 < L.parts }
    ensures text { OnOk result (Wrote O.given out.old out.new (planes_text planes.now)) }
    ensures fits { OnOk result (PlanesFit planes.now) }
{
    let mut steps: Steps<L> = Steps::new(blank);
    out.put(&planes.starts().to_be_bytes())?;
    for plane in 0..planes.planes() {
        put_plane(out, planes, plane, &mut steps)?;
    }
    Ok(())
}

#[tactic(auto, unfolding(crate::specs::PartText::stage_text))]
fn put_stage<O: Output>(out: &mut O, stage: &Stage) -> Result<(), O::Fault>
    ensures text { OnOk result (Wrote O.given out.old out.new (stage_text stage.now)) }
    ensures fits { OnOk result (StageFits stage.now) }
{
    put_u8(out, stage.seed)?;
    put_planes::<O, Brand>(out, &stage.planes, Blank::new(1))?;
    Ok(())
}

fn put_approx<O: Output>(out: &mut O, mixed: &Mixed) -> Result<(), O::Fault>
    ensures text { OnOk result
        (Wrote O.given out.old out.new (to_be_bytes w8 (width_of mixed.now.approx) ++ approx_text mixed.now.approx)) }
    ensures fits { OnOk result (FirstFits mixed.now.approx) }
{
    match mixed.approx() {
        None => put_u8(out, 0),
        Some(stage) => {
            put_u8(out, stage.planes.planes())?;
            put_stage(out, stage)
        }
    }
}

#[tactic(auto, unfolding(crate::specs::PartText::mixed_text))]
fn put_mixed<O: Output>(out: &mut O, mixed: &Mixed) -> Result<(), O::Fault>
    ensures text { OnOk result (Wrote O.given out.old out.new (mixed_text mixed.now)) }
    ensures fits { OnOk result (MixedFits mixed.now) }
{
    put_approx(out, mixed)?;
    put_stage(out, mixed.exact())?;
    Ok(())
}

fn put_leaf<O: Output>(out: &mut O, leaf: &Leaf) -> Result<(), O::Fault>
    ensures text { OnOk result (Wrote O.given out.old out.new (leaf_text leaf.now)) }
    ensures fits { OnOk result (LeafFits leaf.now) }
{
    match leaf {
        Leaf::Clean | Leaf::Every => Ok(()),
        Leaf::Mixed(mixed) => put_mixed(out, mixed),
    }
}

fn put_shard<O: Output>(out: &mut O, leaf: &Leaf) -> Result<(), O::Fault>
    ensures text { OnOk result (Wrote O.given out.old out.new (shard_leaf_text leaf.now)) }
    ensures fits { OnOk result (LeafFits leaf.now) }
{
    put_u8(out, leaf_mode_byte(leaf))?;
    put_leaf(out, leaf)?;
    Ok(())
}

fn put_shards<O: Output>(out: &mut O, leaves: &[Leaf]) -> Result<(), O::Fault>
    ensures text { OnOk result (Wrote O.given out.old out.new (flat_map shard_leaf_text leaves.now)) }
    ensures fits { OnOk result (All LeafFits leaves.now) }
{
    for leaf in leaves {
        put_shard(out, leaf)?;
    }
    Ok(())
}

#[tactic(auto, unfolding(crate::specs::PartText::sharded_text))]
fn put_sharded<O: Output>(out: &mut O, sharded: &Sharded) -> Result<(), O::Fault>
    ensures text { OnOk result (Wrote O.given out.old out.new (sharded_text sharded.now)) }
    ensures fits { OnOk result (ShardsFit sharded.now) }
{
    put_u8(out, sharded.shift())?;
    put_shards(out, sharded.leaves())?;
    Ok(())
}

fn put_body<O: Output>(out: &mut O, body: &Body) -> Result<(), O::Fault>
    ensures text { OnOk result (Wrote O.given out.old out.new (body_text body.now)) }
    ensures fits { OnOk result (BodyFits body.now) }
{
    match body {
        Body::Clean | Body::Every => Ok(()),
        Body::Mixed(mixed) => put_mixed(out, mixed),
        Body::Sharded(sharded) => put_sharded(out, sharded),
    }
}

fn put_block<O: Output>(out: &mut O, block: &Block) -> Result<(), O::Fault>
    ensures text { OnOk result (Wrote O.given out.old out.new (block_text block.now)) }
    ensures fits { OnOk result (BlockFits block.now) }
{
    out.put(block.issuer.bytes())?;
    put_u8(out, mode_byte(&block.body))?;
    put_body(out, &block.body)?;
    Ok(())
}

fn put_blocks<O: Output>(out: &mut O, blocks: &[Block]) -> Result<(), O::Fault>
    ensures text { OnOk result (Wrote O.given out.old out.new (flat_map block_text blocks.now)) }
    ensures fits { OnOk result (All BlockFits blocks.now) }
{
    for block in blocks {
        put_block(out, block)?;
    }
    Ok(())
}

/// Writes all of the part but its trailer.
#[tactic(auto, unfolding(crate::specs::PartText::unsealed_text))]
pub(crate) fn put_unsealed<O: Output>(out: &mut O, part: &Part) -> Result<(), O::Fault>
    ensures text { OnOk result (Wrote O.given out.old out.new (unsealed_text part.now)) }
    ensures fits { OnOk result (FitsPart part.now) }
{
    let blocks = part.blocks();
    put_head(out, version_of(blocks), part.head())?;
    out.put(&(blocks.len() as u32).to_be_bytes())?;
    put_blocks(out, blocks)?;
    Ok(())
}
