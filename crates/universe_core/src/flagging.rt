ghost use Rattle.std.specs.Prelude.{◌≡◌, ◌≤◌, IfOk, map, Bool, length};
ghost use Rattle.std.specs.List.{count_by};
ghost use Rattle.std.specs.List.Sorted.{IsStrictlySortedBy};
ghost use Rattle.std.specs.Thread.{IsSync};
ghost use Rattle.ident_core.specs.Order.{octets_cmp, identity_cmp};
ghost use Rattle.ident_core.specs.declared.identity.Identity.{Identity as IdentityFields};
ghost use Rattle.ledger_core.specs.LedgerFields.{LedgerFields, ids};
ghost use Rattle.ident_core.specs.Sets.{has, has_key};
ghost use Rattle.universe_core.specs.Flagging.{AreFlags};
ghost use Rattle.universe_core.specs.Jobs.{JobFacts};
ghost use Rattle.universe_core.specs.History.{accepted_with, revoked as revoked_of};
ghost use Rattle.universe_core.specs.Ledgers.{past_in};
ghost use Rattle.universe_core.specs.Members.{AreOf, next_of};

use crate::marking::listed_now;
use crate::threading::Threading;
use ident_core::place_of_key_near;
use job_core::JobCrl;
use ledger_core::LedgerItem;
use octets_core::Key32;
use std::alloc::{AllocError, Global};
use std::thread::{Threads, join};

/// Beside each member whether it is revoked, and how many are of the universe.
#[derive(Drop)]
pub(crate) struct Flags {
    pub(crate) revoked: Vec<bool>,
    pub(crate) universe: u32,
}

/// Which members are revoked, where it is known which are settled and which a job lists.
pub(crate) fn flag(
    alloc: Global,
    issuers: &[Key32],
    members: &[LedgerItem],
    settled: &[bool],
    listed: &[bool],
) -> Result<Flags, AllocError>
    requires settled { length settled.now ≡ length members.now }
    requires listed { length listed.now ≡ length members.now }
    requires ascend { IsStrictlySortedBy octets_cmp issuers.now }
    requires few { length members.now ≤ 4294967295 }
    ensures { IfOk result (λ f. AreFlags issuers.now members.now settled.now listed.now f.revoked.items f.universe) }
{
    let mut revoked = Vec::with_capacity(alloc, members.len())?;
    let mut universe = 0;
    let mut near = 0;
    for i in 0..members.len() {
        // The members ascend, so that neighbours mostly have one issuer.
        let place = place_of_key_near(issuers, near, &members[i].id.issuer);
        let enrolled = place.is_some();
        let was = members[i].last.is_some();
        revoked.push(enrolled & ((was | listed[i]) & !settled[i]))?;
        universe += u32::from(enrolled);
        near = place.unwrap_or(near);
    }
    Ok(Flags { revoked, universe })
}

/// The same, by threads. The members are halved into threads until none has more than `most`.
#[cycle(flag_halves)]
pub(crate) fn flag_halves<R: Threads + Sync>(
    rt: &R,
    alloc: Global,
    issuers: &[Key32],
    members: &[LedgerItem],
    settled: &[bool],
    listed: &[bool],
    most: usize,
) -> Result<Flags, AllocError>
    requires settled { length settled.now ≡ length members.now }
    requires listed { length listed.now ≡ length members.now }
    requires ascend { IsStrictlySortedBy octets_cmp issuers.now }
    requires few { length members.now ≤ 4294967295 }
    requires some { 1 ≤ most }
    ensures { IfOk result (λ f. AreFlags issuers.now members.now settled.now listed.now f.revoked.items f.universe) }
{
    if members.len() <= most {
        return flag(alloc, issuers, members, settled, listed);
    }
    let half = members.len() / 2;
    let (first, rest) = members.split_at(half);
    let (first_settled, rest_settled) = settled.split_at(half);
    let (first_listed, rest_listed) = listed.split_at(half);
    let front = move || -> Result<Flags, AllocError>
        requires { IsSync R.row × (1 ≤ most) × IsStrictlySortedBy octets_cmp issuers.now × (length first.now ≤ 4294967295)
            × (length first_settled.now ≡ length first.now) × (length first_listed.now ≡ length first.now) }
        ensures { IfOk result (λ f.
            AreFlags issuers.entry.now first.entry.now first_settled.entry.now first_listed.entry.now f.revoked.items f.universe) }
    { flag_halves(rt, alloc, issuers, first, first_settled, first_listed, most) };
    let back = move || -> Result<Flags, AllocError>
        requires { IsSync R.row × (1 ≤ most) × IsStrictlySortedBy octets_cmp issuers.now × (length rest.now ≤ 4294967295)
            × (length rest_settled.now ≡ length rest.now) × (length rest_listed.now ≡ length rest.now) }
        ensures { IfOk result (λ f.
            AreFlags issuers.entry.now rest.entry.now rest_settled.entry.now rest_listed.entry.now f.revoked.items f.universe) }
    { flag_halves(rt, alloc, issuers, rest, rest_settled, rest_listed, most) };
    let (one, two) = join(rt, front, back);
    let mut flags = one?;
    let mut rest_flags = two?;
    flags.revoked.append(&mut rest_flags.revoked)?;
    flags.universe += rest_flags.universe;
    Ok(flags)
}

/// Which members of a job are revoked, by its CRLs and the issuers that it enrolls.
pub(crate) fn revoked_now<T: Threading>(
    threading: &T,
    alloc: Global,
    crls: &[JobCrl],
    issuers: &[Key32],
    members: &[LedgerItem],
    settled: &[bool],
) -> Result<Flags, AllocError>
    requires shared { T.shared threading.now }
    requires issuers { IsStrictlySortedBy octets_cmp issuers.now }
    requires ascend { IsStrictlySortedBy identity_cmp (ids members.now) }
    requires beside { length settled.now ≡ length members.now }
    requires few { length members.now ≤ 4294967295 }
    ensures revoked { (ledger : LedgerFields) (job : JobFacts) → AreOf ledger job crls.now issuers.now members.now settled.now
        → IfOk result (λ f. f.revoked.items ≡ map (has (revoked_of (past_in ledger) job)) (accepted_with (past_in ledger) job)) }
    ensures beside { IfOk result (λ f. length f.revoked.items ≡ length members.now) }
    ensures universe { IfOk result (λ f. f.universe ≡ count_by (λ m. has_key issuers.now m.id.issuer) members.now) }
{
    let listed = listed_now(alloc, members, crls)?;
    let flags = threading.flag(alloc, issuers, members, settled, &listed)?;
    Ok(flags)
}

/// Makes the items of the next ledger of those that members have, where it is known which are revoked.
pub(crate) fn set_lasts(items: &mut [LedgerItem], revoked: &[bool], place: u8)
    requires { length revoked.now ≡ length items.old }
    ensures items { (h : IdentityFields → Bool) → revoked.now ≡ map (λ m. h m.id) items.old
        → items.new ≡ map (λ m. next_of place (h m.id) m) items.old }
    ensures same { ids items.new ≡ ids items.old }
{
    for i in 0..items.len() {
        if revoked[i] {
            items[i].last = Some(place);
        }
    }
}
