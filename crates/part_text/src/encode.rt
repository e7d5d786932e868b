//! Parts as bytes.

ghost use Rattle.std.specs.Prelude.{◌≡◌, ◌≤◌, ◌+◌, ◌*◌, length, OnOk, IfOk, flat_map};
ghost use Rattle.card_core.specs.declared.part.TheConstants.{MAX_BLOCKS};
ghost use Rattle.part_text.specs.declared.encode.TheConstants.{MAX_STAGE, MAX_LEAF, MAX_BLOCK};
ghost use Rattle.part_text.specs.PartText.{stage_text, approx_text, mixed_text, shard_leaf_text, sharded_text};
ghost use Rattle.part_text.specs.PartText.{body_text, block_text, spelling};
ghost use Rattle.part_text.specs.Fitting.{Fits};

use crate::sealed::Sealed;
use crate::text::put_unsealed;
use card_core::{Block, Body, Leaf, Mixed, Sharded, Stage};
use equation_core::words_for;
use ident_core::RANGE_BYTES;
use octets_core::{NoMemory, put_bytes};
use std::alloc::Global;

/// The bytes of a part with neither ranges nor blocks.
const FRAME: usize = 88;

/// The bytes of a stage without its planes.
const STAGE: usize = 5;

/// No stage has more bytes.
const MAX_STAGE: usize = 10_000_000;

/// No leaf has more bytes: its mode, a count of planes and two stages.
pub const MAX_LEAF: usize = 2 + 2 * MAX_STAGE;

/// No block has more bytes: its issuer, its mode, its shift and 256 leaves.
pub const MAX_BLOCK: usize = 34 + 256 * MAX_LEAF;

#[tactic(auto, using(crate::proofs::Lengths::length_stage))]
fn stage_len(stage: &Stage) -> usize
    ensures value { result ≡ length (stage_text stage.now) }
    ensures few { result ≤ MAX_STAGE }
{
    let planes = &stage.planes;
    STAGE + planes.planes() as usize * (8 * words_for(planes.starts()))
}

fn approx_len(mixed: &Mixed) -> usize
    ensures value { result ≡ length (approx_text mixed.now.approx) }
    ensures few { result ≤ MAX_STAGE }
{
    match mixed.approx() {
        None => 0,
        Some(stage) => stage_len(stage),
    }
}

#[tactic(auto, using(crate::proofs::Lengths::length_mixed))]
fn mixed_len(mixed: &Mixed) -> usize
    ensures value { result ≡ length (mixed_text mixed.now) }
    ensures few { result ≤ 1 + 2 * MAX_STAGE }
{
    1 + approx_len(mixed) + stage_len(mixed.exact())
}

#[tactic(auto, using(crate::proofs::Lengths::length_shard))]
fn shard_len(leaf: &Leaf) -> usize
    ensures value { result ≡ length (shard_leaf_text leaf.now) }
    ensures few { result ≤ MAX_LEAF }
{
    match leaf {
        Leaf::Clean | Leaf::Every => 1,
        Leaf::Mixed(mixed) => 1 + mixed_len(mixed),
    }
}

// The bytes of all shards.
fn shards_len(leaves: &[Leaf]) -> usize
    requires { length leaves.now ≤ 256 }
    ensures value { result ≡ length (flat_map shard_leaf_text leaves.now) }
    ensures few { result ≤ 256 * MAX_LEAF }
{
    let mut len = 0;
    for leaf in leaves {
        len += shard_len(leaf);
    }
    len
}

#[tactic(auto, using(crate::proofs::Lengths::length_sharded, crate::proofs::Lengths::few_shards))]
fn sharded_len(sharded: &Sharded) -> usize
    ensures value { result ≡ length (sharded_text sharded.now) }
    ensures few { result ≤ 1 + 256 * MAX_LEAF }
{
    1 + shards_len(sharded.leaves())
}

fn body_len(body: &Body) -> usize
    ensures value { result ≡ length (body_text body.now) }
    ensures few { result ≤ 1 + 256 * MAX_LEAF }
{
    match body {
        Body::Clean | Body::Every => 0,
        Body::Mixed(mixed) => mixed_len(mixed),
        Body::Sharded(sharded) => sharded_len(sharded),
    }
}

fn block_len(block: &Block) -> usize
    ensures value { result ≡ length (block_text block.now) }
    ensures few { result ≤ MAX_BLOCK }
{
    block.issuer.bytes().len() + 1 + body_len(&block.body)
}

// The bytes of all blocks.
fn blocks_len(blocks: &[Block]) -> usize
    requires { length blocks.now ≤ MAX_BLOCKS }
    ensures value { result ≡ length (flat_map block_text blocks.now) }
    ensures few { result ≤ MAX_BLOCKS * MAX_BLOCK }
{
    let mut len = 0;
    for block in blocks {
        len += block_len(block);
    }
    len
}

/// The text of the part, of which the last 32 bytes are the trailer. Memory is asked for once, for the whole text.
#[tactic(auto, unfolding(crate::specs::PartText::spelling))]
pub fn encode_part(alloc: Global, sealed: &Sealed) -> Result<Vec<u8>, NoMemory>
    ensures text { IfOk result (λ text. text.items ≡ spelling sealed.now) }
    // Its text is read as the same part: `decode_part`.
    ensures fits { OnOk result (Fits sealed.now) }
{
    let part = sealed.part();
    let ranges = part.head().ranges();
    let blocks = part.blocks();
    let mut out = Vec::with_capacity(
        alloc,
        FRAME + RANGE_BYTES * ranges.len() + blocks_len(blocks),
    )?;
    put_unsealed(&mut out, part)?;
    put_bytes(&mut out, sealed.trailer().bytes())?;
    Ok(out)
}
