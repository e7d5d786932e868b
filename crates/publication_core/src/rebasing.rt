ghost use Rattle.std.specs.Prelude.{◌≡◌, ◌≢◌, ◌≤◌, ◌<◌, ℕ, List, [], ◌∷◌, length, map, filter, All, Some, is_some, IfOk, IfErr, OnOk};
ghost use Rattle.std.specs.List.Sorted.{IsStrictlySortedBy};
ghost use Rattle.ident_core.specs.declared.bounds.TheConstants.{MAX_ISSUERS};
ghost use Rattle.ident_core.specs.Coverage.{RangesFit};
ghost use Rattle.ident_core.specs.Order.{identity_cmp};
ghost use Rattle.ledger_core.specs.LedgerFields.{IsLedger, ids, newest, part_fields, sealed_with};
ghost use Rattle.universe_core.specs.Groups.{group_fields, IsGroup};
ghost use Rattle.universe_core.specs.Members.{first_part};
ghost use Rattle.universe_core.specs.Rebases.{is_lasting, issuers_in, count_left, count_pruned, group_among, ledger_cut};
ghost use Rattle.universe_core.specs.Rebases.{rebased_head, rebased_groups, rebased_ledger};
ghost use Rattle.publication_core.specs.LeftOut.{cut_of};

use crate::base_fault::BaseFault;
use crate::enrolling::all_issuers;
use crate::keeping::{count_left as left_of, flags, kept};
use crate::left_out::LeftOut;
use crate::rebased::Rebased;
use ident_core::{Head, Kind, MAX_ISSUERS};
use job_core::What;
use ledger_core::{Draft, Ledger, LedgerItem, LedgerPart};
use octets_core::Key32;
use std::alloc::{AllocError, Global};
use universe_core::{Group, copied_ranges, groups};

fn newest_of(parts: &[LedgerPart]) -> &LedgerPart
    requires { 1 ≤ length parts.now }
    ensures { newest (map part_fields parts.now) ≡ Some (part_fields result.now) }
{
    &parts[parts.len() - 1]
}

/// The head of the part that begins a chain at this one.
fn head_at(alloc: Global, newest: &LedgerPart) -> Result<Head, AllocError>
    requires { RangesFit newest.now.ranges.items }
    ensures { IfOk result (λ h. h ≡ rebased_head (part_fields newest.now ∷ [])) }
{
    let ranges = copied_ranges(alloc, &newest.ranges)?;
    Ok(Head::new(Kind::Snapshot, newest.epoch, Key32::new([0; 32]), ranges))
}

/// A part of the same epoch and coverage, with these issuers, whose trailer isn't known yet.
fn part_at(
    alloc: Global,
    newest: &LedgerPart,
    issuers: Vec<Key32>,
) -> Result<LedgerPart, AllocError>
    ensures { IfOk result (λ p. part_fields p ≡ first_part newest.now.epoch newest.now.ranges.items issuers.items) }
{
    let ranges = copied_ranges(alloc, &newest.ranges)?;
    Ok(LedgerPart {
        epoch: newest.epoch,
        trailer: Key32::new([0; 32]),
        ranges,
        issuers,
    })
}

/// The ledger of this part alone, but for its trailer.
fn draft_of(alloc: Global, part: LedgerPart, items: Vec<LedgerItem>) -> Result<Draft, AllocError>
    requires { IsLedger (record { parts = part_fields part ∷ []; items = items.items }) }
    ensures { IfOk result (λ d. d ≡ record { parts = part_fields part ∷ []; items = items.items }) }
{
    let mut parts = Vec::with_capacity(alloc, 1)?;
    parts.push(part)?;
    Ok(Draft::new(parts, items))
}

/// The groups of issuers, where an identity with a last is revoked.
fn groups_of(
    alloc: Global,
    issuers: &[Key32],
    items: &[LedgerItem],
) -> Result<Vec<Group>, AllocError>
    requires { IsStrictlySortedBy identity_cmp (ids items.now) }
    ensures { IfOk result (λ gs. map group_fields gs.items
        ≡ map (group_among (ids items.now) (ids (filter (λ i. is_some i.last) items.now))) issuers.now) }
{
    let revoked = flags(alloc, items)?;
    groups(alloc, issuers, items, &revoked)
}

/// Refuses more issuers than a part may have. It takes no memory.
fn check_limit(issuers: usize) -> Result<(), BaseFault>
    ensures few { OnOk result (issuers ≤ MAX_ISSUERS) }
    ensures many { IfErr result (λ e. (e ≡ BaseFault.TooMany What.Issuers MAX_ISSUERS) × (MAX_ISSUERS < issuers)) }
{
    if issuers > MAX_ISSUERS {
        return Err(BaseFault::TooMany {
            what: What::Issuers,
            limit: MAX_ISSUERS as u32,
        });
    }
    Ok(())
}

/// Begins a chain anew from a ledger, without the identities whose date lies before the moment, which is in
/// milliseconds since 1970, and without what is left out. The ledger stays as it is.
pub fn rebase(
    alloc: Global,
    ledger: &Ledger,
    moment: u64,
    left_out: &LeftOut,
) -> Result<Rebased, BaseFault>
    ensures rebased { OnOk result (length (issuers_in (ledger_cut (cut_of left_out.now) ledger.now).parts) ≤ MAX_ISSUERS) }
    ensures refused { IfErr result (λ e. e ≢ BaseFault.NoMemory
        → (e ≡ BaseFault.TooMany What.Issuers MAX_ISSUERS)
        × (MAX_ISSUERS < length (issuers_in (ledger_cut (cut_of left_out.now) ledger.now).parts))) }
    ensures head { IfOk result (λ r. r.head ≡ rebased_head (ledger_cut (cut_of left_out.now) ledger.now).parts) }
    ensures groups { IfOk result (λ r. map group_fields r.groups.items
        ≡ rebased_groups (is_lasting moment) (ledger_cut (cut_of left_out.now) ledger.now)) }
    ensures facts { IfOk result (λ r. All IsGroup (map group_fields r.groups.items)) }
    ensures pruned { IfOk result (λ r. r.pruned ≡ count_pruned (is_lasting moment) (ledger_cut (cut_of left_out.now) ledger.now)) }
    ensures left { IfOk result (λ r. r.left ≡ count_left (cut_of left_out.now) ledger.now) }
    // For every trailer that the part may have.
    ensures next { IfOk result (λ r. (trailer : List ℕ)
        → sealed_with r.next trailer ≡ rebased_ledger (is_lasting moment) (ledger_cut (cut_of left_out.now) ledger.now) trailer) }
{
    let issuers = all_issuers(alloc, ledger.parts(), left_out)?;
    check_limit(issuers.len())?;
    let newest = newest_of(ledger.parts());
    let items = kept(alloc, ledger.items(), moment, left_out)?;
    let left = left_of(ledger.items(), left_out);
    let pruned = ledger.items().len() - items.len() - left;
    let groups = groups_of(alloc, &issuers, &items)?;
    let head = head_at(alloc, newest)?;
    let part = part_at(alloc, newest, issuers)?;
    let next = draft_of(alloc, part, items)?;
    Ok(Rebased {
        head,
        groups,
        pruned: pruned as u32,
        left: left as u32,
        next,
    })
}
