ghost use Rattle.std.specs.Prelude.{◌≡◌, ◌≤◌, length, map, not, IfOk};
ghost use Rattle.std.specs.Thread.{IsSync};
ghost use Rattle.ident_core.specs.declared.bounds.TheConstants.{MAX_IDENTITIES};
ghost use Rattle.card_core.specs.Leaf.{flagged};
ghost use Rattle.stage_core.specs.Built.{BuildsBlock, BuildsLeaf};
ghost use Rattle.stage_core.specs.Members.{flagged_rows, false_positive_flags};

use crate::fault::BlockFault;
use crate::hashing::{ByCalls, Hashing, OneThread};
use crate::in_threads::{flags_in_threads, rows_in_threads};
use crate::keys::Shape;
use crate::leaf::leaf_of;
use card_core::{Block, Leaf, Stage};
use equation_core::{EquationHash, Row};
use ident_core::Identity;
use octets_core::Key32;
use rayon::current_num_threads;
use std::alloc::{AllocError, Global};
use std::thread::Threads;

// The fewest members that are worth a thread.
const FEW: usize = 512;

/// The leaf of a universe, or of one of its shards, and of the identities among these whose flag is set, the revoked.
/// It takes a byte for each identity, and the rows and the system of one seed at a time.
pub fn build_leaf<H: EquationHash>(
    alloc: Global,
    hash: &H,
    universe: &[Identity],
    revoked: &[bool],
) -> Result<Leaf, BlockFault>
    requires flags { length revoked.now ≡ length universe.now }
    requires few { length universe.now ≤ MAX_IDENTITIES }
    ensures { BuildsLeaf (H.row_of hash.now) (flagged universe.now revoked.now) (flagged universe.now (map not revoked.now)) result }
{
    leaf_of(alloc, &OneThread { hash }, universe, revoked)
}

// The block that isn't cut.
fn block_of<W: Hashing>(
    alloc: Global,
    hashing: &W,
    issuer: Key32,
    universe: &[Identity],
    revoked: &[bool],
) -> Result<Block, BlockFault>
    requires shared { W.shared hashing.now }
    requires flags { length revoked.now ≡ length universe.now }
    requires few { length universe.now ≤ MAX_IDENTITIES }
    ensures { BuildsBlock (W.row_of hashing.now) issuer universe.now revoked.now result }
{
    match leaf_of(alloc, hashing, universe, revoked) {
        Ok(leaf) => Ok(Block {
            issuer,
            body: leaf.into(),
        }),
        Err(fault) => Err(fault),
    }
}

/// The block of an issuer, which isn't cut: the leaf of its universe, and of the identities among these whose flag is
/// set, the revoked. It takes a byte for each identity, and the rows and the system of one seed at a time.
pub fn build_block<H: EquationHash>(
    alloc: Global,
    hash: &H,
    issuer: Key32,
    universe: &[Identity],
    revoked: &[bool],
) -> Result<Block, BlockFault>
    requires flags { length revoked.now ≡ length universe.now }
    requires few { length universe.now ≤ MAX_IDENTITIES }
    ensures { BuildsBlock (H.row_of hash.now) issuer universe.now revoked.now result }
{
    block_of(alloc, &OneThread { hash }, issuer, universe, revoked)
}

/// The same block. The rows of a seed, and the false positives, are found by as many threads as there are processors,
/// or fewer where each would have few members, and the rows are added by the caller's.
pub fn build_block_wide<R: Threads + Sync, H: EquationHash + Sync>(
    rt: &R,
    alloc: Global,
    hash: &H,
    issuer: Key32,
    universe: &[Identity],
    revoked: &[bool],
) -> Result<Block, BlockFault>
    requires flags { length revoked.now ≡ length universe.now }
    requires few { length universe.now ≤ MAX_IDENTITIES }
    ensures { BuildsBlock (H.row_of hash.now) issuer universe.now revoked.now result }
{
    let most = universe.len().div_ceil(current_num_threads(rt)).max(FEW);
    let rows = |shape: Shape, seed: u8, universe: &[Identity], flags: &[bool]| -> Result<
        Vec<Row>,
        AllocError,
    >
        requires { IsSync R.row × IsSync H.row × (1 ≤ most) × (1 ≤ shape.starts) × (length flags.now ≤ length universe.now) }
        ensures { IfOk result (λ v. v.items ≡ flagged_rows (H.row_of hash.entry.now) shape seed universe.entry.now flags.entry.now) }
    { rows_in_threads(rt, alloc, hash, shape, seed, universe, flags, most) };
    let passed = |approx: &Option<Stage>, universe: &[Identity], revoked: &[bool]| -> Result<
        Vec<bool>,
        AllocError,
    >
        requires { IsSync R.row × IsSync H.row × (1 ≤ most) × (length revoked.now ≡ length universe.now) }
        ensures { IfOk result (λ v.
            v.items ≡ false_positive_flags (H.row_of hash.entry.now) approx.entry.now universe.entry.now revoked.entry.now) }
    { flags_in_threads(rt, alloc, hash, approx, universe, revoked, most) };
    let hashing = ByCalls {
        hash,
        rows: &rows,
        passed: &passed,
    };
    block_of(alloc, &hashing, issuer, universe, revoked)
}
