//! What a leaf that stands in bytes says of a certificate.

ghost use Rattle.std.specs.Prelude.{◌≡◌, ℕ, ◌<◌, ◌≤◌, ◌^◌, ◌+◌, ◌*◌, ◌==◌, length, Option, Some, IfSome};
ghost use Rattle.equation_core.specs.Rows.{sha256_row};
ghost use Rattle.equation_core.specs.declared.hash.TheConstants.{MAX_PLANES};
ghost use Rattle.ident_core.specs.declared.identity.Identity.{Identity};
ghost use Rattle.card_core.specs.declared.stage.Stage.{Stage};
ghost use Rattle.card_core.specs.declared.leaf.Leaf.{Leaf};
ghost use Rattle.card_core.specs.declared.leaf.Leaf.TheVariants.{Mixed};
ghost use Rattle.card_core.specs.MixedFields.{MixedFields};
ghost use Rattle.card_core.specs.Leaf.{is_leaf_positive, accepts as is_accepted, passes as is_passed, exact_sum};
ghost use Rattle.part_text.specs.PartText.{stage_text, approx_text, width_of};
ghost use Rattle.part_text.specs.PartText.{mixed_text, leaf_mode, leaf_text, shard_leaf_text};
ghost use Rattle.part_text.specs.Fitting.{StageFits, FirstFits, MixedFits, LeafFits};
ghost use Rattle.view_core.specs.Texts.{Stands};
ghost use Rattle.view_core.specs.Stages.{head_of, IsStageHead};

use crate::ends::approx_end;
use crate::layout::STAGE_HEAD;
use crate::plane::sum_at;
use crate::reading::{bytes_at, number8_at};
use equation_core::{Draws, MAX_PLANES, MAX_STARTS, Row, RowKey, words_for};
use octets_core::Steps;
use std::sync::ledger::Ledger;

/// What stands of a stage before its planes, and where these begin.
#[derive(Clone, Copy, Debug)]
pub(crate) struct StageHead {
    pub seed: u8,
    pub starts: u32,
    /// The offset of the first plane.
    pub planes: usize,
}

/// The head of a stage that stands at this place, if its starts are in their limits.
pub(crate) fn stage_at(bytes: &[u8], at: usize) -> Option<StageHead>
    ensures value { (s : Stage) → StageFits s → Stands bytes.now at (stage_text s) → result ≡ Some (head_of s at) }
    ensures facts { IfSome result (IsStageHead (length bytes.now)) }
{
    let head = bytes_at(bytes, at, STAGE_HEAD)?;
    let starts = u32::from_be_bytes([head[1], head[2], head[3], head[4]]);
    if starts < 1 || MAX_STARTS < starts {
        return None;
    }
    Some(StageHead {
        seed: head[0],
        starts,
        planes: at + STAGE_HEAD,
    })
}

/// Whether the row's sum in each of so many planes of a stage is the bit of its tag.
fn accepts_at<M: Ledger>(
    bytes: &[u8],
    stage: &StageHead,
    count: u8,
    row: &Row,
    words: &mut Steps<M>,
) -> bool
    requires stage { IsStageHead (length bytes.now) stage.now }
    requires few { count ≤ MAX_PLANES }
    requires row { row.now.start < stage.now.starts }
    ensures value { (at : ℕ) (s : Stage) (id : Identity) → StageFits s → length s.planes.columns ≡ count
        → stage.now ≡ head_of s at → Stands bytes.now at (stage_text s)
        → result ≡ is_accepted (λ _ _ _ _. row.now) s id }
    ensures more { words.old ≤ words.new }
    ensures steps { words.new ≤ words.old + 3 * count }
{
    let width = 8 * words_for(stage.starts);
    for plane in 0..count {
        let at = stage.planes + width * plane as usize;
        let sum = sum_at(bytes, at, row.start, row.coeff, words);
        if u16::from(sum) != (row.tag >> plane) & 1 {
            return false;
        }
    }
    true
}

/// Whether the approximate stage of so many planes that stands at this place accepts the identity. Without planes there
/// is no stage, and each identity passes.
fn passes_at<M: Ledger>(
    bytes: &[u8],
    at: usize,
    count: u8,
    draws: &mut Draws,
    words: &mut Steps<M>,
) -> bool
    requires few { count ≤ MAX_PLANES }
    ensures value { (first : Option Stage) → FirstFits first → width_of first ≡ count
        → Stands bytes.now at (approx_text first) → result ≡ is_passed sha256_row first draws.old }
    ensures same { draws.new ≡ draws.old }
    ensures more { words.old ≤ words.new }
    ensures steps { words.new ≤ words.old + 48 }
{
    if count == 0 {
        return true;
    }
    let Some(stage) = stage_at(bytes, at) else {
        return false;
    };
    let row = draws.row(RowKey {
        stage: 1,
        seed: stage.seed,
        starts: stage.starts,
    });
    accepts_at(bytes, &stage, count, &row, words)
}

/// Whether the sum of the exact stage that stands at this place is one.
fn is_one_at<M: Ledger>(bytes: &[u8], at: usize, draws: &mut Draws, words: &mut Steps<M>) -> bool
    ensures value { (s : Stage) → StageFits s → length s.planes.columns ≡ 1 → Stands bytes.now at (stage_text s)
        → result ≡ (exact_sum sha256_row s draws.old == 1) }
    ensures same { draws.new ≡ draws.old }
    ensures more { words.old ≤ words.new }
    ensures steps { words.new ≤ words.old + 3 }
{
    let Some(stage) = stage_at(bytes, at) else {
        return false;
    };
    let row = draws.row(RowKey {
        stage: 2,
        seed: stage.seed,
        starts: stage.starts,
    });
    sum_at(bytes, stage.planes, row.start, row.coeff, words) == 1
}

/// What a mixed body that stands at this place says.
fn mixed_says<M: Ledger>(bytes: &[u8], at: usize, draws: &mut Draws, words: &mut Steps<M>) -> bool
    requires place { at < 2 ^ 63 }
    ensures value { (m : MixedFields) → MixedFits m → Stands bytes.now at (mixed_text m)
        → result ≡ is_leaf_positive sha256_row draws.old (Mixed m) }
    ensures same { draws.new ≡ draws.old }
    ensures more { words.old ≤ words.new }
    ensures steps { words.new ≤ words.old + 51 }
{
    let planes = number8_at(bytes, at);
    if planes > MAX_PLANES || !passes_at(bytes, at + 1, planes, draws, words) {
        return false;
    }
    match approx_end(bytes, at + 1, planes) {
        Some(exact) => is_one_at(bytes, exact, draws, words),
        None => false,
    }
}

/// What a leaf of this mode that stands at this place says.
pub(crate) fn leaf_says<M: Ledger>(
    bytes: &[u8],
    at: usize,
    mode: u8,
    draws: &mut Draws,
    words: &mut Steps<M>,
) -> bool
    requires place { at < 2 ^ 63 }
    ensures value { (l : Leaf) → LeafFits l → leaf_mode l ≡ mode → Stands bytes.now at (leaf_text l)
        → result ≡ is_leaf_positive sha256_row draws.old l }
    ensures same { draws.new ≡ draws.old }
    ensures more { words.old ≤ words.new }
    ensures steps { words.new ≤ words.old + 51 }
{
    match mode {
        0 => false,
        1 => true,
        _ => mixed_says(bytes, at, draws, words),
    }
}

/// What the leaf of a shard that stands at this place says.
pub(crate) fn shard_says<M: Ledger>(
    bytes: &[u8],
    at: usize,
    draws: &mut Draws,
    words: &mut Steps<M>,
) -> bool
    requires place { at < 2 ^ 32 }
    ensures value { (l : Leaf) → LeafFits l → Stands bytes.now at (shard_leaf_text l)
        → result ≡ is_leaf_positive sha256_row draws.old l }
    ensures same { draws.new ≡ draws.old }
    ensures more { words.old ≤ words.new }
    ensures steps { words.new ≤ words.old + 51 }
{
    leaf_says(bytes, at + 1, number8_at(bytes, at), draws, words)
}
