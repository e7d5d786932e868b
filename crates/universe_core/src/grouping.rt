ghost use Rattle.std.specs.Prelude.{◌≡◌, IfOk, map, length, Bool};
ghost use Rattle.std.specs.List.Sorted.{IsStrictlySortedBy};
ghost use Rattle.ident_core.specs.Order.{identity_cmp};
ghost use Rattle.ident_core.specs.declared.identity.Identity.{Identity as IdentityFields};
ghost use Rattle.ledger_core.specs.LedgerFields.{ids};
ghost use Rattle.universe_core.specs.Groups.{group_fields};
ghost use Rattle.universe_core.specs.Members.{group_with};

use crate::admitted::Group;
use crate::marking::run_of;
use ident_core::Identity;
use ledger_core::LedgerItem;
use octets_core::Key32;
use rayon::prelude::*;
use std::alloc::{AllocError, Global};
use std::thread::Threads;

/// The group of an issuer.
fn group(
    alloc: Global,
    issuer: &Key32,
    items: &[LedgerItem],
    revoked: &[bool],
) -> Result<Group, AllocError>
    requires ascend { IsStrictlySortedBy identity_cmp (ids items.now) }
    requires beside { length revoked.now ≡ length items.now }
    ensures { (h : IdentityFields → Bool) → revoked.now ≡ map h (ids items.now)
        → IfOk result (λ g. group_fields g ≡ group_with h (ids items.now) issuer.now) }
{
    let run = run_of(items, issuer);
    let own = &items[run.start..run.end];
    let universe = own.iter().map(|x| x.id).collect::<Vec<Identity>>(alloc)?;
    let flags = &revoked[run.start..run.end];
    Ok(Group {
        issuer: *issuer,
        universe,
        revoked: flags.iter().copied().collect::<Vec<bool>>(alloc)?,
    })
}

/// The groups of issuers, in their order, where it is known of each identity whether it is revoked.
pub fn groups(
    alloc: Global,
    issuers: &[Key32],
    items: &[LedgerItem],
    revoked: &[bool],
) -> Result<Vec<Group>, AllocError>
    requires ascend { IsStrictlySortedBy identity_cmp (ids items.now) }
    requires beside { length revoked.now ≡ length items.now }
    ensures { (h : IdentityFields → Bool) → revoked.now ≡ map h (ids items.now)
        → IfOk result (λ gs. map group_fields gs.items ≡ map (group_with h (ids items.now)) issuers.now) }
{
    let mut out = Vec::with_capacity(alloc, issuers.len())?;
    for issuer in issuers {
        let one = group(alloc, issuer, items, revoked)?;
        out.push(one)?;
    }
    Ok(out)
}

/// The same, by as many threads as there are processors. A group is made by one thread.
pub(crate) fn groups_in_threads<R: Threads + Sync>(
    rt: &R,
    alloc: Global,
    issuers: &[Key32],
    items: &[LedgerItem],
    revoked: &[bool],
) -> Result<Vec<Group>, AllocError>
    requires ascend { IsStrictlySortedBy identity_cmp (ids items.now) }
    requires beside { length revoked.now ≡ length items.now }
    ensures { (h : IdentityFields → Bool) → revoked.now ≡ map h (ids items.now)
        → IfOk result (λ gs. map group_fields gs.items ≡ map (group_with h (ids items.now)) issuers.now) }
{
    issuers
        .par_iter()
        .with_min_len(1)
        .map(
            |issuer: &Key32| -> Result<Group, AllocError>
                requires { IsStrictlySortedBy identity_cmp (ids items.now) × (length revoked.now ≡ length items.now) }
                ensures { (h : IdentityFields → Bool) → revoked.entry.now ≡ map h (ids items.entry.now)
                    → IfOk result (λ g. group_fields g ≡ group_with h (ids items.entry.now) issuer.now) }
            { group(alloc, issuer, items, revoked) },
        )
        .collect::<Result<Vec<Group>, AllocError>>(rt, alloc)?
}
