ghost use Rattle.std.specs.Prelude.{◌≡◌, ◌<◌, ◌≤◌, ◌+◌, ◌*◌, length};
ghost use Rattle.ident_core.specs.declared.identity.Identity.{Identity};
ghost use Rattle.equation_core.specs.declared.hash.TheConstants.{MAX_PLANES};
ghost use Rattle.card_core.specs.Leaf.{accepts as is_accepted, exact_sum};

use equation_core::{EquationHash, Row, RowKey};
use ident_core::Identity;
use octets_core::Steps;
use ribbon_core::Planes;
use std::sync::ledger::Ledger;

/// One of a filter's two systems, solved: its seed, and the least solution of each plane.
#[derive(Drop)]
pub struct Stage {
    pub seed: u8,
    pub planes: Planes,
}

// The key of the rows by which the stage of this number asks.
pub(crate) fn key_of(number: u8, stage: &Stage) -> RowKey
    ensures value { result ≡ record { stage = number; seed = stage.now.seed; starts = stage.now.planes.starts } }
    ensures some { 1 ≤ result.starts }
{
    RowKey {
        stage: number,
        seed: stage.seed,
        starts: stage.planes.starts(),
    }
}

/// Whether an approximate stage accepts an identity that has this row: in each plane, the row's sum is the bit of its
/// tag. Each word of the planes that is read takes a step.
pub fn accepts_row<M: Ledger>(stage: &Stage, row: &Row, words: &mut Steps<M>) -> bool
    requires { row.now.start < stage.now.planes.starts }
    ensures value { (id : Identity) → result ≡ is_accepted (λ _ _ _ _. row.now) stage.now id }
    ensures few { length stage.now.planes.columns ≤ MAX_PLANES }
    ensures more { words.old ≤ words.new }
    ensures steps { words.new ≤ words.old + 3 * length stage.now.planes.columns }
{
    let modulus = 1u32 << stage.planes.planes();
    let sums = stage.planes.parity(row, words);
    u32::from(sums) == u32::from(row.tag) % modulus
}

/// Whether an approximate stage accepts the identity, by its row.
pub fn accepts<H: EquationHash, M: Ledger>(
    stage: &Stage,
    hash: &H,
    id: &Identity,
    words: &mut Steps<M>,
) -> bool
    ensures value { result ≡ is_accepted (H.row_of hash.now) stage.now id.now }
    ensures few { length stage.now.planes.columns ≤ MAX_PLANES }
    ensures more { words.old ≤ words.new }
    ensures steps { words.new ≤ words.old + 3 * length stage.now.planes.columns }
{
    let row = hash.row(1, stage.seed, id, stage.planes.starts());
    accepts_row(stage, &row, words)
}

// The sum for the identity in the one plane of an exact stage.
pub(crate) fn exact_sum_of<H: EquationHash, M: Ledger>(
    stage: &Stage,
    hash: &H,
    id: &Identity,
    words: &mut Steps<M>,
) -> u16
    requires { length stage.now.planes.columns ≡ 1 }
    ensures value { result ≡ exact_sum (H.row_of hash.now) stage.now id.now }
    ensures more { words.old ≤ words.new }
    ensures steps { words.new ≤ words.old + 3 }
{
    let row = hash.row(2, stage.seed, id, stage.planes.starts());
    stage.planes.parity(&row, words)
}
