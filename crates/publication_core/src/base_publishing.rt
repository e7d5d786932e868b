//! What is published of a ledger alone: a chain that begins anew.

ghost use Rattle.std.specs.Prelude.{◌≡◌, ◌≢◌, ◌≤◌, Err, length, filter, is_some};
ghost use Rattle.ident_core.specs.declared.bounds.TheConstants.{MAX_WORKERS};
ghost use Rattle.publication_core.specs.LeftOut.{cut_of};
ghost use Rattle.publication_core.specs.Rebasing.{PublishesBase};

use crate::base::{BaseCounts, BasePublication};
use crate::base_fault::BaseFault;
use crate::left_out::LeftOut;
use crate::publish::built;
use crate::rebased::Rebased;
use crate::rebasing::rebase;
use builder_core::Gate;
use ledger_core::{Ledger, LedgerItem};
use std::alloc::Global;
use std::thread::Threads;

/// How many items have a last.
fn count_revoked(items: &[LedgerItem]) -> usize
    ensures { result ≡ length (filter (λ i. is_some i.last) items.now) }
{
    items.iter().filter(|item| item.last.is_some()).count()
}

/// What is published of a ledger without the identities whose date lies before the moment, which is in milliseconds
/// since 1970, and without what is left out: the part and the ledger that begin a chain anew. It is built by 1 to 64
/// workers, each of which enters the gate before it builds a leaf of an issuer's block. The ledger is let go before the
/// part is built.
pub fn publish_base<R: Threads + Sync, G: Gate + Sync>(
    rt: &R,
    alloc: Global,
    gate: &G,
    ledger: Ledger,
    moment: u64,
    left_out: &LeftOut,
    workers: u32,
) -> Result<BasePublication, BaseFault>
    requires some_workers { 1 ≤ workers }
    requires few_workers { workers ≤ MAX_WORKERS }
    ensures { result ≢ Err BaseFault.NoMemory → PublishesBase ledger moment (cut_of left_out.now) result }
{
    let rebased = rebase(alloc, &ledger, moment, left_out)?;
    let Rebased {
        head,
        groups,
        pruned,
        left,
        next,
    } = rebased;
    drop(ledger);
    let made = built(rt, alloc, gate, head, &groups, next, workers)?;
    let (sealed, ledger) = made;
    let counts = BaseCounts {
        issuers: groups.len(),
        universe: ledger.items().len(),
        revoked: count_revoked(ledger.items()),
        pruned,
        left,
    };
    Ok(BasePublication::new(sealed, ledger, counts))
}
