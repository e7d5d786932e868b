ghost use Rattle.std.specs.Prelude.{◌≡◌, ◌≤◌, length, IfOk};
ghost use Rattle.std.specs.Thread.{IsSync};
ghost use Rattle.stage_core.specs.Members.{flagged_rows, false_positive_flags};

use crate::keys::Shape;
use crate::passing::flags_alone;
use crate::rows::rows_alone;
use card_core::Stage;
use equation_core::{EquationHash, Row};
use ident_core::Identity;
use std::alloc::{AllocError, Global};
use std::thread::{Threads, join};

/// The rows of the members whose flag is set, in order. The flags are halved into threads until none has more than
/// `most`.
#[cycle(rows_in_threads)]
pub fn rows_in_threads<R: Threads + Sync, H: EquationHash + Sync>(
    rt: &R,
    alloc: Global,
    hash: &H,
    shape: Shape,
    seed: u8,
    universe: &[Identity],
    flags: &[bool],
    most: usize,
) -> Result<Vec<Row>, AllocError>
    requires some { 1 ≤ shape.starts }
    requires flags { length flags.now ≤ length universe.now }
    requires most { 1 ≤ most }
    ensures { IfOk result (λ v. v.items ≡ flagged_rows (H.row_of hash.now) shape seed universe.now flags.now) }
{
    if flags.len() <= most {
        return rows_alone(alloc, hash, shape, seed, universe, flags);
    }
    let half = flags.len() / 2;
    let (first, rest) = universe.split_at(half);
    let (first_flags, rest_flags) = flags.split_at(half);
    let front = move || -> Result<Vec<Row>, AllocError>
        requires { IsSync R.row × IsSync H.row × (1 ≤ shape.starts) × (1 ≤ most) × (length first_flags.now ≤ length first.now) }
        ensures { IfOk result (λ v.
            v.items ≡ flagged_rows (H.row_of hash.entry.now) shape seed first.entry.now first_flags.entry.now) }
    { rows_in_threads(rt, alloc, hash, shape, seed, first, first_flags, most) };
    let back = move || -> Result<Vec<Row>, AllocError>
        requires { IsSync R.row × IsSync H.row × (1 ≤ shape.starts) × (1 ≤ most) × (length rest_flags.now ≤ length rest.now) }
        ensures { IfOk result (λ v.
            v.items ≡ flagged_rows (H.row_of hash.entry.now) shape seed rest.entry.now rest_flags.entry.now) }
    { rows_in_threads(rt, alloc, hash, shape, seed, rest, rest_flags, most) };
    let (one, two) = join(rt, front, back);
    let mut rows = one?;
    let mut more = two?;
    rows.append(&mut more)?;
    Ok(rows)
}

/// Of each member of the universe, in order, whether it is a false positive. The universe is halved into threads in the
/// same way.
#[cycle(flags_in_threads)]
pub fn flags_in_threads<R: Threads + Sync, H: EquationHash + Sync>(
    rt: &R,
    alloc: Global,
    hash: &H,
    approx: &Option<Stage>,
    universe: &[Identity],
    revoked: &[bool],
    most: usize,
) -> Result<Vec<bool>, AllocError>
    requires flags { length revoked.now ≡ length universe.now }
    requires most { 1 ≤ most }
    ensures { IfOk result (λ v. v.items ≡ false_positive_flags (H.row_of hash.now) approx.now universe.now revoked.now) }
{
    if universe.len() <= most {
        return flags_alone(alloc, hash, approx, universe, revoked);
    }
    let half = universe.len() / 2;
    let (first, rest) = universe.split_at(half);
    let (first_revoked, rest_revoked) = revoked.split_at(half);
    let front = move || -> Result<Vec<bool>, AllocError>
        requires { IsSync R.row × IsSync H.row × (1 ≤ most) × (length first_revoked.now ≡ length first.now) }
        ensures { IfOk result (λ v.
            v.items ≡ false_positive_flags (H.row_of hash.entry.now) approx.entry.now first.entry.now first_revoked.entry.now) }
    { flags_in_threads(rt, alloc, hash, approx, first, first_revoked, most) };
    let back = move || -> Result<Vec<bool>, AllocError>
        requires { IsSync R.row × IsSync H.row × (1 ≤ most) × (length rest_revoked.now ≡ length rest.now) }
        ensures { IfOk result (λ v.
            v.items ≡ false_positive_flags (H.row_of hash.entry.now) approx.entry.now rest.entry.now rest_revoked.entry.now) }
    { flags_in_threads(rt, alloc, hash, approx, rest, rest_revoked, most) };
    let (one, two) = join(rt, front, back);
    let mut flags = one?;
    let mut more = two?;
    flags.append(&mut more)?;
    Ok(flags)
}
