ghost use Rattle.std.specs.Prelude.{◌≡◌, ◌≤◌, length, map, IfOk};
ghost use Rattle.card_core.specs.Leaf.{flagged};
ghost use Rattle.stage_core.specs.Members.{flagged_rows};

use crate::keys::Shape;
use equation_core::{EquationHash, Row};
use ident_core::Identity;
use std::alloc::{AllocError, Global};

// The members whose flag is set, in order.
fn flagged_members<'a>(
    alloc: Global,
    universe: &'a [Identity],
    flags: &[bool],
) -> Result<Vec<&'a Identity>, AllocError>
    requires { length flags.now ≤ length universe.now }
    ensures { IfOk result (λ v. map (λ key. key.now) v.items ≡ flagged universe.now flags.now) }
{
    let mut keys = Vec::new(alloc);
    for (i, flag) in flags.iter().enumerate() {
        if *flag {
            keys.push(&universe[i])?;
        }
    }
    Ok(keys)
}

// The row of each key. Four at a time are drawn side by side.
fn rows_by_fours<H: EquationHash>(
    alloc: Global,
    hash: &H,
    shape: Shape,
    seed: u8,
    keys: &[&Identity],
) -> Result<Vec<Row>, AllocError>
    requires { 1 ≤ shape.starts }
    ensures { IfOk result (λ v. v.items ≡ map (λ key. H.row_of hash.now shape.stage seed key.now shape.starts) keys.now) }
{
    let mut rows = Vec::with_capacity(alloc, keys.len())?;
    let fours = keys.len() / 4;
    'fours: for i in 0..fours {
        let at = 4 * i;
        let four = hash.four_rows(
            shape.stage,
            seed,
            keys[at],
            keys[at + 1],
            keys[at + 2],
            keys[at + 3],
            shape.starts,
        );
        rows.extend_from_slice(&four)?;
    }
    'rest: for i in 4 * fours..keys.len() {
        rows.push(hash.row(shape.stage, seed, keys[i], shape.starts))?;
    }
    Ok(rows)
}

/// The rows of the members whose flag is set, in order.
pub fn rows_alone<H: EquationHash>(
    alloc: Global,
    hash: &H,
    shape: Shape,
    seed: u8,
    universe: &[Identity],
    flags: &[bool],
) -> Result<Vec<Row>, AllocError>
    requires some { 1 ≤ shape.starts }
    requires flags { length flags.now ≤ length universe.now }
    ensures { IfOk result (λ v. v.items ≡ flagged_rows (H.row_of hash.now) shape seed universe.now flags.now) }
{
    let keys = flagged_members(alloc, universe, flags)?;
    let rows = rows_by_fours(alloc, hash, shape, seed, &keys)?;
    Ok(rows)
}
