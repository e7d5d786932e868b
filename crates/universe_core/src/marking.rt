ghost use Rattle.std.specs.List.Sorted.{IsStrictlySortedBy};
ghost use Rattle.std.specs.List.{list_any};
ghost use Rattle.std.specs.Str.{bytes_eq};
ghost use Rattle.std.specs.Prelude.{◌≡◌, ◌<◌, ◌-◌, ◌||◌, ◌&&◌, All, length, map, get_or, slice_get, Bool, IfOk, OnOk};
ghost use Rattle.std.specs.Prelude.{IsErr, Some, true, false};
ghost use Rattle.ident_core.specs.Order.{identity_cmp, serial_cmp, is_same as same};
ghost use Rattle.ident_core.specs.declared.identity.Identity.{Identity as IdentityFields};
ghost use Rattle.ledger_core.specs.LedgerFields.{ids};
ghost use Rattle.ident_core.specs.Sets.{has_key};
ghost use Rattle.universe_core.specs.Enrolling.{facts_of_crl, holds};
ghost use Rattle.universe_core.specs.Marking.{IsListed, IsRunOf, IsWindow, listed_in, serials_of};
ghost use Rattle.std.specs.declared.cmp.Ordering.TheVariants.{Less, Greater};

use crate::listing::{Listed, sorted};
use crate::serial_key::{key_of, order_serials};
use job_core::JobCrl;
use ledger_core::LedgerItem;
use octets_core::Key32;
use std::alloc::{AllocError, Global};
use std::cmp::Ordering;

/// How many members are looked at near the place of the serial before.
const WINDOW: usize = 16;

/// Where an issuer's members stand among ascending members.
#[derive(Clone, Copy)]
pub(crate) struct Run {
    pub(crate) start: usize,
    pub(crate) end: usize,
}

/// The run of the issuer's members. Two binary searches.
pub(crate) fn run_of(members: &[LedgerItem], issuer: &Key32) -> Run
    requires { IsStrictlySortedBy identity_cmp (ids members.now) }
    ensures { IsRunOf issuer.now members.now result }
{
    let start = members.partition_point(|m| m.id.issuer.cmp(issuer).is_lt());
    let own = members[start..].partition_point(|m| !issuer.cmp(&m.id.issuer).is_lt());
    Run {
        start,
        end: start + own,
    }
}

/// How the serial of a member and a listed one are ordered.
fn order(member: &LedgerItem, listed: &Listed<'_>) -> Ordering
    requires { IsListed listed.now }
    ensures { result ≡ serial_cmp member.now.id.serial listed.now.serial.now }
{
    let serial = &member.id.serial;
    order_serials(serial, key_of(serial), listed.serial, listed.key)
}

/// Whether the serial is above the members before the first place and below those from the second on.
fn is_between(run: &[LedgerItem], start: usize, end: usize, listed: &Listed<'_>) -> bool
    requires start { start < length run.now }
    requires end { end < length run.now }
    requires key { IsListed listed.now }
    ensures above { result ≡ true → 0 < start → (d : LedgerItem)
        → serial_cmp (get_or run.now (start - 1) d).id.serial listed.now.serial.now ≡ Less }
    ensures below { result ≡ true → (d : LedgerItem) → serial_cmp (get_or run.now end d).id.serial listed.now.serial.now ≡ Greater }
{
    if start > 0 && !order(&run[start - 1], listed).is_lt() {
        return false;
    }
    order(&run[end], listed).is_gt()
}

/// A part of the run that has the serial's member, if there is one: the few members near a place where these are seen
/// to suffice, or all.
fn window_of(run: &[LedgerItem], near: usize, listed: &Listed<'_>) -> Run
    requires sorted { IsStrictlySortedBy serial_cmp (serials_of run.now) }
    requires key { IsListed listed.now }
    ensures { IsWindow listed.now.serial.now run.now result }
{
    let end = near.saturating_add(WINDOW);
    if end < run.len() && is_between(run, near, end, listed) {
        return Run { start: near, end };
    }
    Run {
        start: 0,
        end: run.len(),
    }
}

/// The place of the member of a serial among those of one issuer, counted from 0, or where it would stand. A binary
/// search, which is shorter where that is near.
fn place_of(run: &[LedgerItem], near: usize, listed: &Listed<'_>) -> Result<usize, usize>
    requires sorted { IsStrictlySortedBy serial_cmp (serials_of run.now) }
    requires key { IsListed listed.now }
    ensures some { IfOk result (λ i. slice_get (serials_of run.now) i ≡ Some listed.now.serial.now) }
    ensures within { IfOk result (λ i. i < length run.now) }
    ensures none { IsErr result → has_key (serials_of run.now) listed.now.serial.now ≡ false }
{
    let window = window_of(run, near, listed);
    match run[window.start..window.end].binary_search_by(|m| order(m, listed)) {
        Ok(place) => Ok(window.start + place),
        Err(place) => Err(window.start + place),
    }
}

/// Marks the member of an issuer's serial, if there is one, and tells where in the run it is or would stand.
fn mark_serial(
    flags: &mut [bool],
    members: &[LedgerItem],
    issuer: &Key32,
    run: Run,
    near: usize,
    listed: &Listed<'_>,
) -> usize
    requires sorted { IsStrictlySortedBy identity_cmp (ids members.now) }
    requires beside { length flags.old ≡ length members.now }
    requires run { IsRunOf issuer.now members.now run }
    requires key { IsListed listed.now }
    ensures { (q : IdentityFields → Bool) → flags.old ≡ map q (ids members.now)
        → flags.new ≡ map (λ x. q x || same x (record { issuer = issuer.now; serial = listed.now.serial.now })) (ids members.now) }
{
    match place_of(&members[run.start..run.end], near, listed) {
        Ok(place) => {
            flags[run.start + place] = true;
            place
        }
        Err(place) => place,
    }
}

/// Marks the members of these serials of an issuer, beside those that were marked.
fn mark_serials(
    flags: &mut [bool],
    members: &[LedgerItem],
    issuer: &Key32,
    run: Run,
    listed: &[Listed<'_>],
)
    requires sorted { IsStrictlySortedBy identity_cmp (ids members.now) }
    requires beside { length flags.old ≡ length members.now }
    requires run { IsRunOf issuer.now members.now run }
    requires keys { All IsListed listed.now }
    ensures { (p : IdentityFields → Bool) → flags.old ≡ map p (ids members.now)
        → flags.new
        ≡ map (λ x. p x || (bytes_eq x.issuer issuer.now && has_key (listed_in listed.now) x.serial)) (ids members.now) }
{
    let mut near = 0;
    for one in listed {
        near = mark_serial(flags, members, issuer, run, near, one);
    }
}

/// Marks the members that a CRL holds, if it is accepted, beside those that were marked.
fn mark_crl(
    alloc: Global,
    flags: &mut [bool],
    members: &[LedgerItem],
    crl: &JobCrl,
) -> Result<(), AllocError>
    requires sorted { IsStrictlySortedBy identity_cmp (ids members.now) }
    requires beside { length flags.old ≡ length members.now }
    ensures { (p : IdentityFields → Bool) → flags.old ≡ map p (ids members.now)
        → OnOk result (flags.new ≡ map (λ x. p x || holds (facts_of_crl crl.now) x) (ids members.now)) }
{
    if let Ok(list) = &crl.outcome {
        let run = run_of(members, &crl.issuer);
        if run.start == run.end {
            return Ok(());
        }
        let listed = sorted(alloc, &list.serials)?;
        mark_serials(flags, members, &crl.issuer, run, &listed);
    }
    Ok(())
}

/// Marks the members that CRLs hold, beside those that were marked.
fn mark_all(
    alloc: Global,
    flags: &mut [bool],
    members: &[LedgerItem],
    crls: &[JobCrl],
) -> Result<(), AllocError>
    requires sorted { IsStrictlySortedBy identity_cmp (ids members.now) }
    requires beside { length flags.old ≡ length members.now }
    ensures { (p : IdentityFields → Bool) → flags.old ≡ map p (ids members.now)
        → OnOk result (flags.new ≡ map (λ x. p x || list_any (λ c. holds (facts_of_crl c) x) crls.now) (ids members.now)) }
{
    for crl in crls {
        mark_crl(alloc, flags, members, crl)?;
    }
    Ok(())
}

/// Which of ascending members CRLs hold.
pub(crate) fn listed_now(
    alloc: Global,
    members: &[LedgerItem],
    crls: &[JobCrl],
) -> Result<Vec<bool>, AllocError>
    requires sorted { IsStrictlySortedBy identity_cmp (ids members.now) }
    ensures { IfOk result (λ flags. flags.items ≡ map (λ x. list_any (λ c. holds (facts_of_crl c) x) crls.now) (ids members.now)) }
{
    let mut flags = members.iter().map(|_| false).collect::<Vec<bool>>(alloc)?;
    mark_all(alloc, &mut flags, members, crls)?;
    Ok(flags)
}
