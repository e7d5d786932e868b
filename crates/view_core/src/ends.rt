//! Where stages, leaves and blocks end that stand in bytes. Each answers `None` where they are cut off.

ghost use Rattle.std.specs.Prelude.{◌≡◌, ℕ, ◌<◌, ◌≤◌, ◌^◌, ◌+◌, length, flat_map, List, Option, Some, IfSome, All};
ghost use Rattle.card_core.specs.declared.stage.Stage.{Stage};
ghost use Rattle.card_core.specs.declared.leaf.Leaf.{Leaf};
ghost use Rattle.card_core.specs.declared.block.Block.{Block};
ghost use Rattle.card_core.specs.declared.block.Body.{Body};
ghost use Rattle.card_core.specs.MixedFields.{MixedFields};
ghost use Rattle.part_text.specs.PartText.{stage_text, approx_text, mixed_text, leaf_mode, leaf_text, shard_leaf_text};
ghost use Rattle.part_text.specs.PartText.{mode_of, body_text, block_text, width_of};
ghost use Rattle.part_text.specs.Fitting.{StageFits, FirstFits, MixedFits, LeafFits, BodyFits, BlockFits};
ghost use Rattle.view_core.specs.Texts.{Stands};

use crate::layout::BLOCK_HEAD;
use crate::leaf::stage_at;
use crate::reading::{bytes_at, number8_at};
use equation_core::{MAX_SHIFT, words_for};

/// Where a stage of so many planes ends that stands at this place.
fn stage_end(bytes: &[u8], at: usize, count: u8) -> Option<usize>
    ensures value { (s : Stage) → StageFits s → length s.planes.columns ≡ count → Stands bytes.now at (stage_text s)
        → result ≡ Some (at + length (stage_text s)) }
    ensures within { IfSome result (λ end. end ≤ length bytes.now) }
{
    let stage = stage_at(bytes, at)?;
    let width = 8 * words_for(stage.starts) * count as usize;
    if bytes.len() - stage.planes < width {
        return None;
    }
    Some(stage.planes + width)
}

/// Where an approximate stage of so many planes ends that stands at this place. Without planes there is no stage.
pub(crate) fn approx_end(bytes: &[u8], at: usize, count: u8) -> Option<usize>
    ensures value { (first : Option Stage) → FirstFits first → width_of first ≡ count
        → Stands bytes.now at (approx_text first) → result ≡ Some (at + length (approx_text first)) }
    ensures within { at ≤ length bytes.now → IfSome result (λ end. end ≤ length bytes.now) }
{
    if count == 0 {
        return Some(at);
    }
    stage_end(bytes, at, count)
}

/// Where a mixed body ends that stands at this place.
fn mixed_end(bytes: &[u8], at: usize) -> Option<usize>
    requires place { at < 2 ^ 63 }
    ensures value { (m : MixedFields) → MixedFits m → Stands bytes.now at (mixed_text m)
        → result ≡ Some (at + length (mixed_text m)) }
    ensures within { IfSome result (λ end. end ≤ length bytes.now) }
{
    let exact = approx_end(bytes, at + 1, number8_at(bytes, at))?;
    stage_end(bytes, exact, 1)
}

/// Where a leaf of this mode ends that stands at this place.
fn leaf_end(bytes: &[u8], at: usize, mode: u8) -> Option<usize>
    requires place { at < 2 ^ 63 }
    ensures value { (l : Leaf) → LeafFits l → leaf_mode l ≡ mode → Stands bytes.now at (leaf_text l)
        → result ≡ Some (at + length (leaf_text l)) }
    ensures within { at ≤ length bytes.now → IfSome result (λ end. end ≤ length bytes.now) }
{
    match mode {
        0 | 1 => Some(at),
        _ => mixed_end(bytes, at),
    }
}

/// Where a shard ends that stands at this place.
pub(crate) fn shard_end(bytes: &[u8], at: usize) -> Option<usize>
    ensures value { (l : Leaf) → LeafFits l → Stands bytes.now at (shard_leaf_text l)
        → result ≡ Some (at + length (shard_leaf_text l)) }
    ensures within { IfSome result (λ end. end ≤ length bytes.now) }
{
    if bytes.len() <= at {
        return None;
    }
    leaf_end(bytes, at + 1, number8_at(bytes, at))
}

/// Where so many shards end, one after the other, of which the first stands at this place.
fn shards_end(bytes: &[u8], at: usize, count: u16) -> Option<usize>
    ensures value { (leaves : List Leaf) → All LeafFits leaves → length leaves ≡ count
        → Stands bytes.now at (flat_map shard_leaf_text leaves) → result ≡ Some (at + length (flat_map shard_leaf_text leaves)) }
    ensures within { at ≤ length bytes.now → IfSome result (λ end. end ≤ length bytes.now) }
{
    let mut end = at;
    for _ in 0..count {
        end = shard_end(bytes, end)?;
    }
    Some(end)
}

/// How many shards a shift tells.
pub(crate) fn shards_of(shift: u8) -> u16
    ensures { shift ≤ MAX_SHIFT → result ≡ 2 ^ shift }
{
    if shift > MAX_SHIFT { 0 } else { 1 << shift }
}

/// Where a body of this mode ends that stands at this place.
fn body_end(bytes: &[u8], at: usize, mode: u8) -> Option<usize>
    requires place { at < 2 ^ 63 }
    ensures value { (b : Body) → BodyFits b → mode_of b ≡ mode → Stands bytes.now at (body_text b)
        → result ≡ Some (at + length (body_text b)) }
    ensures within { at ≤ length bytes.now → IfSome result (λ end. end ≤ length bytes.now) }
{
    if mode < 3 {
        return leaf_end(bytes, at, mode);
    }
    if bytes.len() <= at {
        return None;
    }
    shards_end(bytes, at + 1, shards_of(number8_at(bytes, at)))
}

/// Where a block ends that stands at this place.
pub(crate) fn block_end(bytes: &[u8], at: usize) -> Option<usize>
    ensures value { (b : Block) → BlockFits b → Stands bytes.now at (block_text b)
        → result ≡ Some (at + length (block_text b)) }
    ensures within { IfSome result (λ end. end ≤ length bytes.now) }
{
    bytes_at(bytes, at, BLOCK_HEAD)?;
    let body = at + BLOCK_HEAD;
    body_end(bytes, body, number8_at(bytes, body - 1))
}
