ghost use Rattle.std.specs.Prelude.{◌≡◌, ◌<◌, ◌&&◌, [], ◌∷◌, length, slice_index_or, not, false, IfOk};
ghost use Rattle.ident_core.specs.declared.identity.Identity.{Identity};
ghost use Rattle.card_core.specs.Leaf.{accepts as is_accepted, passes as is_passed};
ghost use Rattle.stage_core.specs.Members.{false_positive_flags};

use card_core::{Stage, accepts, accepts_row};
use equation_core::{EquationHash, Row};
use ident_core::Identity;
use octets_core::Steps;
use std::alloc::{AllocError, Global};
use std::marker::Brand;
use std::sync::ledger::{Blank, Ledger};

// Whether the approximate stage accepts an identity, which it does where there is none. The words that it reads are
// counted for nobody.
fn passes_from<H: EquationHash, M: Ledger>(
    hash: &H,
    approx: &Option<Stage>,
    id: &Identity,
    blank: Blank,
) -> bool
    requires name { blank.name ≡ M.name }
    requires parts { blank.parts ≡ M.parts }
    requires some { 0 < blank.parts }
    ensures { result ≡ is_passed (H.row_of hash.now) approx.now id.now }
{
    let mut words: Steps<M> = Steps::new(blank);
    match approx {
        None => true,
        Some(stage) => accepts(stage, hash, id, &mut words),
    }
}

/// The same, only for an identity that isn't revoked.
pub fn is_false_positive<H: EquationHash>(
    hash: &H,
    approx: &Option<Stage>,
    id: &Identity,
    revoked: bool,
) -> bool
    ensures { result ≡ (not revoked && is_passed (H.row_of hash.now) approx.now id.now) }
{
    !revoked && passes_from::<H, Brand>(hash, approx, id, Blank::new(1))
}

// Whether the approximate stage accepts the identity that has this row. The words that it reads are counted for nobody.
fn row_passes_from<M: Ledger>(stage: &Stage, row: &Row, blank: Blank) -> bool
    requires fits { row.now.start < stage.now.planes.starts }
    requires name { blank.name ≡ M.name }
    requires parts { blank.parts ≡ M.parts }
    requires some { 0 < blank.parts }
    ensures { (id : Identity) → result ≡ is_accepted (λ _ _ _ _. row.now) stage.now id }
{
    let mut words: Steps<M> = Steps::new(blank);
    accepts_row(stage, row, &mut words)
}

// The same, only for an identity that isn't revoked.
fn is_row_false_positive(stage: &Stage, row: &Row, revoked: bool) -> bool
    requires { row.now.start < stage.now.planes.starts }
    ensures { (id : Identity) → result ≡ (not revoked && is_accepted (λ _ _ _ _. row.now) stage.now id) }
{
    if revoked {
        return false;
    }
    row_passes_from::<Brand>(stage, row, Blank::new(1))
}

// Of four identities, whether each is a false positive of the stage. Their rows are drawn side by side.
fn four_by_rows<H: EquationHash>(
    hash: &H,
    stage: &Stage,
    a: &Identity,
    b: &Identity,
    c: &Identity,
    d: &Identity,
    revoked: [bool; 4],
) -> [bool; 4]
    ensures { result
        ≡ (not (slice_index_or revoked 0 false) && is_accepted (H.row_of hash.now) stage.now a.now)
        ∷ (not (slice_index_or revoked 1 false) && is_accepted (H.row_of hash.now) stage.now b.now)
        ∷ (not (slice_index_or revoked 2 false) && is_accepted (H.row_of hash.now) stage.now c.now)
        ∷ (not (slice_index_or revoked 3 false) && is_accepted (H.row_of hash.now) stage.now d.now) ∷ [] }
{
    let rows = hash.four_rows(1, stage.seed, a, b, c, d, stage.planes.starts());
    [
        is_row_false_positive(stage, &rows[0], revoked[0]),
        is_row_false_positive(stage, &rows[1], revoked[1]),
        is_row_false_positive(stage, &rows[2], revoked[2]),
        is_row_false_positive(stage, &rows[3], revoked[3]),
    ]
}

// Of four identities, whether each is a false positive. Where most are revoked, there are too few rows to be drawn.
fn four_flags<H: EquationHash>(
    hash: &H,
    approx: &Option<Stage>,
    a: &Identity,
    b: &Identity,
    c: &Identity,
    d: &Identity,
    revoked: [bool; 4],
) -> [bool; 4]
    ensures { result
        ≡ (not (slice_index_or revoked 0 false) && is_passed (H.row_of hash.now) approx.now a.now)
        ∷ (not (slice_index_or revoked 1 false) && is_passed (H.row_of hash.now) approx.now b.now)
        ∷ (not (slice_index_or revoked 2 false) && is_passed (H.row_of hash.now) approx.now c.now)
        ∷ (not (slice_index_or revoked 3 false) && is_passed (H.row_of hash.now) approx.now d.now) ∷ [] }
{
    let count = u8::from(revoked[0])
        + u8::from(revoked[1])
        + u8::from(revoked[2])
        + u8::from(revoked[3]);
    match approx {
        Some(stage) if count <= 2 => four_by_rows(hash, stage, a, b, c, d, revoked),
        _ => [
            is_false_positive(hash, approx, a, revoked[0]),
            is_false_positive(hash, approx, b, revoked[1]),
            is_false_positive(hash, approx, c, revoked[2]),
            is_false_positive(hash, approx, d, revoked[3]),
        ],
    }
}

/// Of each member of the universe, in order, whether it is a false positive.
pub fn flags_alone<H: EquationHash>(
    alloc: Global,
    hash: &H,
    approx: &Option<Stage>,
    universe: &[Identity],
    revoked: &[bool],
) -> Result<Vec<bool>, AllocError>
    requires { length revoked.now ≡ length universe.now }
    ensures { IfOk result (λ v. v.items ≡ false_positive_flags (H.row_of hash.now) approx.now universe.now revoked.now) }
{
    let mut flags = Vec::with_capacity(alloc, universe.len())?;
    let fours = universe.len() / 4;
    'fours: for i in 0..fours {
        let at = 4 * i;
        let four_revoked = [
            revoked[at],
            revoked[at + 1],
            revoked[at + 2],
            revoked[at + 3],
        ];
        flags.extend_from_slice(&four_flags(
            hash,
            approx,
            &universe[at],
            &universe[at + 1],
            &universe[at + 2],
            &universe[at + 3],
            four_revoked,
        ))?;
    }
    'rest: for i in 4 * fours..universe.len() {
        flags.push(is_false_positive(hash, approx, &universe[i], revoked[i]))?;
    }
    Ok(flags)
}
