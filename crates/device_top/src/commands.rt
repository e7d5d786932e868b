//! What each command answers, from what its device and its file hold.

ghost use Rattle.std.specs.Prelude.{◌≡◌, ◌≤◌, ◌++◌, List, ℕ, [], ◌∷◌};
ghost use Rattle.std.specs.Prelude.{Some, None, Ok, IfOk, IfErr, IsOk, IsErr, OnErr};
ghost use Rattle.outside_core.specs.Effects.{OnlyReads};
ghost use Rattle.slot_core.specs.Disk.{Quiet};
ghost use Rattle.slot_core.specs.Fields.{Shows};
ghost use Rattle.slot_core.specs.Attached.{IsSlotsOf, IsEither};
ghost use Rattle.slot_core.specs.Moments.{LeavesOnly};
ghost use Rattle.store_core.specs.declared.chain.Refusal.{Refusal};
ghost use Rattle.store_core.specs.Chain.{refusal_of};
ghost use Rattle.store_core.specs.StoreLayout.{store_text};
ghost use Rattle.outside_core.specs.Reads.{WhichFailed};
ghost use Rattle.word_core.specs.declared.device.DeviceCommand.TheVariants as commands;
ghost use Rattle.device_top.specs.Outcomes.{formats, replaced as replaced_by, stored as stored_as};
ghost use Rattle.device_top.specs.Comes.{Comes, Queried};
ghost use Rattle.device_top.specs.Holding.{Answers, IsWant, held_refusal};
ghost use Rattle.device_top.specs.Crashes.{Survives};
ghost use Rattle.device_top.specs.Calls.{SaysWhich};

use crate::held::{AttachedStore, HeldFault, held_in, store_of};
use input_core::{FileFault, part_in, read_up_to};
use line_core::stored as stored_line;
use octets_core::NoMemory;
use outside_core::Depot;
use part_codec::Sealed;
use reply_core::Reply;
use slot_core::{Disk, Slots, format};
use std::alloc::Global;
use store_core::{Store, encode_store};
use word_core::command::Query;
use word_core::{Format, InstallPart};

/// The reply where a device was given a store.
fn stored<'a>(store: &Store) -> Reply<'a>
    ensures { result ≡ stored_as store.now }
{
    Reply::done(stored_line(store.parts().len(), store.newest_epoch()))
}

/// The reply about the device of this name, from which no store was read.
fn not_held(name: &str, fault: HeldFault) -> Result<Reply<'_>, NoMemory>
    ensures ok { IfOk result (λ r. r ≡ held_refusal name.now fault) }
    ensures memory { IsWant fault → IsErr result }
    ensures err { OnErr result (IsWant fault) }
{
    match fault {
        HeldFault::Slots(fault) => Reply::slot_refusal(name, fault),
        HeldFault::Store(fault) => Reply::refusal(name, fault),
    }
}

/// The reply of `device-query`.
pub fn answer_query<'a, D: Disk>(
    alloc: Global,
    query: &Query<'a>,
    disk: &mut D,
) -> Result<Reply<'a>, NoMemory>
    ensures answers { IfOk result (λ r.
        Answers (Queried query.now (D.state disk.old).told) (query.now.store ∷ [])
        (D.state disk.old) (D.state disk.new) r) }
    ensures later { (D.state disk.old).faults ≤ (D.state disk.new).faults }
    ensures quiet { Quiet (D.state disk.old) (D.state disk.new) }
{
    match held_in(alloc, disk) {
        Ok(held) => {
            let verdict = held.store.says(&query.id, query.sightings.as_slice());
            Ok(Reply::verdict(verdict))
        }
        Err(fault) => not_held(query.store.as_str(), fault),
    }
}

/// Makes the device of a store's bytes.
fn formatted<'a, D: Disk>(
    asked: &Format<'a>,
    bytes: &[u8],
    store: &Store,
    disk: &mut D,
) -> Result<Reply<'a>, NoMemory>
    ensures answers { IfOk result (λ r.
        Answers (λ o. o ≡ formats asked.now bytes.now (Ok store.now)) (asked.now.device ∷ [])
        (D.state disk.old) (D.state disk.new) r) }
    // It takes no memory.
    ensures some { IsOk result }
    ensures later { (D.state disk.old).faults ≤ (D.state disk.new).faults }
{
    match format(disk, asked.capacity.get(), bytes) {
        Ok(()) => Ok(stored(store)),
        Err(fault) => Reply::slot_refusal(asked.device.as_str(), fault),
    }
}

/// The reply of `device-format`.
pub fn answer_format<'a, D: Disk, P: Depot>(
    alloc: Global,
    asked: &Format<'a>,
    disk: &mut D,
    depot: &mut P,
) -> Result<Reply<'a>, NoMemory>
    ensures answers { IfOk result (λ r.
        Answers (Comes (commands.Format asked.now) (P.files depot.old)
        (WhichFailed P.Depot depot.old depot.new) (D.state disk.old).told)
        (asked.now.device ∷ []) (D.state disk.old) (D.state disk.new) r) }
    ensures blamed { IfOk result (λ r. SaysWhich (WhichFailed P.Depot depot.old depot.new) (asked.now.store ∷ []) r) }
    ensures memory { OnErr result (Quiet (D.state disk.old) (D.state disk.new)) }
    ensures later { (D.state disk.old).faults ≤ (D.state disk.new).faults }
    ensures only_reads { OnlyReads P.Depot depot.old depot.new }
{
    let bytes = match read_up_to(alloc, depot, asked.store.as_str(), usize::MAX) {
        Ok(bytes) => bytes,
        Err(fault) => return Reply::refusal(asked.store.as_str(), FileFault::from(fault)),
    };
    match store_of(alloc, &bytes) {
        Ok(store) => formatted(asked, &bytes, &store, disk),
        Err(fault) => Reply::refusal(asked.store.as_str(), fault),
    }
}

/// The store with the part.
fn installed(store: Store, part: Sealed) -> Result<Store, FileFault>
    ensures ok { IfOk result (λ s. (refusal_of store part ≡ None) × (s ≡ store ++ part ∷ [])) }
    ensures refused { IfErr result (λ fault. (why : Refusal) × (refusal_of store part ≡ Some why) × (fault ≡ FileFault.Chain why)) }
{
    let mut store = store;
    match store.install(part) {
        Ok(()) => Ok(store),
        Err(refused) => Err(FileFault::Chain(refused.why)),
    }
}

/// Puts the store in the place of that which the device of this name holds.
fn replaced<'a, D: Disk>(
    alloc: Global,
    slots: Slots,
    disk: &mut D,
    name: &'a str,
    store: &Store,
) -> Result<Reply<'a>, NoMemory>
    ensures answers { Shows (D.state disk.old).told (λ _. (held : List ℕ) × IsSlotsOf (D.state disk.old) slots held)
        → IfOk result (λ r. Answers (λ o. o ≡ replaced_by name.now slots.capacity store.now) (name.now ∷ [])
        (D.state disk.old) (D.state disk.new) r) }
    ensures any_moment { (held : List ℕ) → IsSlotsOf (D.state disk.old) slots held
        → LeavesOnly (D.state disk.old) (D.state disk.new) (IsEither slots.capacity held (store_text store.now)) }
    ensures memory { OnErr result (Quiet (D.state disk.old) (D.state disk.new)) }
    ensures later { (D.state disk.old).faults ≤ (D.state disk.new).faults }
{
    let text = encode_store(alloc, store)?;
    match slots.replace(disk, &text) {
        Ok(_) => Ok(stored(store)),
        Err(fault) => Reply::slot_refusal(name, fault),
    }
}

/// The reply of `device-install`.
pub fn answer_install<'a, D: Disk, P: Depot>(
    alloc: Global,
    asked: &InstallPart<'a>,
    disk: &mut D,
    depot: &mut P,
) -> Result<Reply<'a>, NoMemory>
    ensures answers { IfOk result (λ r.
        Answers (Comes (commands.Install asked.now) (P.files depot.old)
        (WhichFailed P.Depot depot.old depot.new) (D.state disk.old).told)
        (asked.now.device ∷ []) (D.state disk.old) (D.state disk.new) r) }
    ensures blamed { IfOk result (λ r. SaysWhich (WhichFailed P.Depot depot.old depot.new) (asked.now.part ∷ []) r) }
    ensures survives { Survives (P.files depot.old) (WhichFailed P.Depot depot.old depot.new) asked.now.part
        (D.state disk.old) (D.state disk.new) }
    ensures memory { OnErr result (Quiet (D.state disk.old) (D.state disk.new)) }
    ensures later { (D.state disk.old).faults ≤ (D.state disk.new).faults }
    ensures only_reads { OnlyReads P.Depot depot.old depot.new }
{
    let AttachedStore { slots, store } = match held_in(alloc, disk) {
        Ok(held) => held,
        Err(fault) => return not_held(asked.device.as_str(), fault),
    };
    let part = match part_in(alloc, depot, asked.part.as_str()) {
        Ok((part, _)) => part,
        Err(fault) => return Reply::refusal(asked.part.as_str(), fault),
    };
    match installed(store, part) {
        Ok(store) => replaced(alloc, slots, disk, asked.device.as_str(), &store),
        Err(fault) => Reply::refusal(asked.part.as_str(), fault),
    }
}
