ghost use Rattle.std.specs.Prelude.{◌≡◌, ◌≤◌, IfOk, OnOk, Bool, length, map};
ghost use Rattle.std.specs.List.Sorted.{IsPermutation, IsStrictlySortedBy};
ghost use Rattle.ident_core.specs.Order.{identity_cmp, octets_cmp};
ghost use Rattle.ident_core.specs.declared.identity.Identity.{Identity as IdentityFields};
ghost use Rattle.ledger_core.specs.LedgerFields.{ids};
ghost use Rattle.universe_core.specs.Flagging.{AreFlags};
ghost use Rattle.universe_core.specs.Groups.{group_fields};
ghost use Rattle.universe_core.specs.Members.{group_with};
ghost use Rattle.universe_core.specs.Merges.{AreMergeable, IsMergeOf};

use crate::admitted::Group;
use crate::flagging::{Flags, flag, flag_halves};
use crate::grouping::{groups, groups_in_threads};
use crate::halving::merge_in_threads;
use crate::judging::Context;
use crate::merging::{Merged, merge_unsorted};
use crate::read_entry::ReadEntry;
use ledger_core::LedgerItem;
use octets_core::Key32;
use rayon::current_num_threads;
use std::alloc::{AllocError, Global};
use std::thread::Threads;

/// So many members are told by one thread, and fewer entries are merged by one. To start another thread takes longer
/// than it saves.
pub(crate) const FEW: usize = 16384;

/// By how many threads the steps of an admission are done that several threads can share.
pub(crate) trait Threading {
    /// What its threads may share.
    ghost shared: { Self → Type 0 };

    /// What becomes of items and entries, which are sorted.
    fn merge(
        &self,
        alloc: Global,
        context: &Context,
        items: &[LedgerItem],
        entries: &mut [ReadEntry],
    ) -> Result<Merged, AllocError>
        requires shared { shared self.now }
        requires mergeable { AreMergeable context.now items.now entries.old }
        ensures same { OnOk result (IsPermutation entries.old entries.new) }
        ensures merged { IfOk result (IsMergeOf context.now items.now entries.new) }
    {
        merge_unsorted(alloc, context, items, entries)
    }

    /// Which members are revoked, where it is known which are settled and which a job lists.
    fn flag(
        &self,
        alloc: Global,
        issuers: &[Key32],
        members: &[LedgerItem],
        settled: &[bool],
        listed: &[bool],
    ) -> Result<Flags, AllocError>
        requires shared { shared self.now }
        requires settled { length settled.now ≡ length members.now }
        requires listed { length listed.now ≡ length members.now }
        requires ascend { IsStrictlySortedBy octets_cmp issuers.now }
        requires few { length members.now ≤ 4294967295 }
        ensures { IfOk result (λ f. AreFlags issuers.now members.now settled.now listed.now f.revoked.items f.universe) }
    {
        flag(alloc, issuers, members, settled, listed)
    }

    /// The groups of issuers, in their order, where it is known of each identity whether it is revoked.
    fn groups(
        &self,
        alloc: Global,
        issuers: &[Key32],
        items: &[LedgerItem],
        revoked: &[bool],
    ) -> Result<Vec<Group>, AllocError>
        requires shared { shared self.now }
        requires ascend { IsStrictlySortedBy identity_cmp (ids items.now) }
        requires beside { length revoked.now ≡ length items.now }
        ensures { (h : IdentityFields → Bool) → revoked.now ≡ map h (ids items.now)
            → IfOk result (λ gs. map group_fields gs.items ≡ map (group_with h (ids items.now)) issuers.now) }
    {
        groups(alloc, issuers, items, revoked)
    }
}

/// The caller's thread alone.
#[derive(Drop)]
pub(crate) struct CallersThread;

impl Threading for CallersThread {
    ghost shared = { λ threading. Unit {0} };
}

/// As many threads as there are processors where there are more workers than one, else the caller's.
#[derive(Drop)]
pub(crate) struct ByWorkers<'a, R> {
    pub(crate) rt: &'a R,
    pub(crate) workers: u32,
}

impl<'a, R: Threads + Sync> Threading for ByWorkers<'a, R> {
    ghost use Rattle.std.specs.Thread.{IsSync};

    ghost shared = { λ threading. IsSync R.row };

    fn merge(
        &self,
        alloc: Global,
        context: &Context,
        items: &[LedgerItem],
        entries: &mut [ReadEntry],
    ) -> Result<Merged, AllocError> {
        if self.workers > 1 {
            let threads = current_num_threads(self.rt);
            merge_in_threads(self.rt, alloc, context, items, entries, threads)
        } else {
            merge_unsorted(alloc, context, items, entries)
        }
    }

    fn flag(
        &self,
        alloc: Global,
        issuers: &[Key32],
        members: &[LedgerItem],
        settled: &[bool],
        listed: &[bool],
    ) -> Result<Flags, AllocError> {
        if self.workers > 1 {
            let share = members
                .len()
                .div_ceil(current_num_threads(self.rt))
                .max(FEW);
            flag_halves(self.rt, alloc, issuers, members, settled, listed, share)
        } else {
            flag(alloc, issuers, members, settled, listed)
        }
    }

    fn groups(
        &self,
        alloc: Global,
        issuers: &[Key32],
        items: &[LedgerItem],
        revoked: &[bool],
    ) -> Result<Vec<Group>, AllocError> {
        if self.workers > 1 {
            groups_in_threads(self.rt, alloc, issuers, items, revoked)
        } else {
            groups(alloc, issuers, items, revoked)
        }
    }
}
