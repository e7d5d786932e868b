//! The client's commands that write a store: what each answers, from what its files hold.

ghost use Rattle.std.specs.Prelude.{◌≡◌, Ok, Err, IfOk, IfErr};
ghost use Rattle.octets_core.specs.Reading.{GivesUnless};
ghost use Rattle.outside_core.specs.Effects.{OnlyReads};
ghost use Rattle.word_core.specs.declared.command.Command.{Command};
ghost use Rattle.command_core.specs.Commands.{begun as begun_with, installed as installed_with};
ghost use Rattle.command_core.specs.Commands.{stored as stored_as};
ghost use Rattle.command_core.specs.Answering.{reply_fields};
ghost use Rattle.command_core.specs.Replies.{done, IsReply};
ghost use Rattle.outside_core.specs.Reads.{WhichFailed};

use crate::answer::Answer;
use crate::commands::refused;
use crate::output::Output;
use input_core::{FileFault, part_in, store_in};
use line_core::stored as stored_line;
use octets_core::NoMemory;
use outside_core::Depot;
use part_codec::Sealed;
use reply_core::Reply;
use std::alloc::Global;
use store_core::{Store, StoreFault, encode_store};
use word_core::command::{Install, Start};

/// The answer where a store is written to the file of this name.
fn stored<'a>(alloc: Global, name: &'a str, store: &Store) -> Result<Answer<'a>, NoMemory>
    ensures { IfOk result (λ a. reply_fields a ≡ done (stored_as name.now store.now)) }
{
    let text = encode_store(alloc, store)?;
    let mut outputs = Vec::with_capacity(alloc, 1)?;
    outputs.push(Output::new(name, text))?;
    let line = stored_line(store.parts().len(), store.newest_epoch());
    Ok(Answer::Files(outputs, Reply::done(line)))
}

/// The store that the part begins.
fn begun(alloc: Global, part: Sealed) -> Result<Store, FileFault>
    ensures { GivesUnless FileFault.NoMemory (λ s. s) result (begun_with part) }
{
    match Store::start(alloc, part) {
        Ok(store) => Ok(store),
        Err(fault) => Err(FileFault::from(StoreFault::from(fault))),
    }
}

/// The store with the part. No memory is taken.
fn installed(store: Store, part: Sealed) -> Result<Store, FileFault>
    ensures ok { IfOk result (λ s. installed_with store part ≡ Ok s) }
    ensures err { IfErr result (λ e. installed_with store part ≡ Err e) }
{
    let mut store = store;
    match store.install(part) {
        Ok(()) => Ok(store),
        Err(refused) => Err(FileFault::Chain(refused.why)),
    }
}

/// The answer of `start`.
pub fn answer_start<'a, D: Depot>(
    alloc: Global,
    start: &Start<'a>,
    depot: &mut D,
) -> Result<Answer<'a>, NoMemory>
    ensures reply { IfOk result (λ a. IsReply (Command.Start start.now) (D.files depot.old)
        (WhichFailed D.Depot depot.old depot.new) (reply_fields a)) }
    ensures only_reads { OnlyReads D.Depot depot.old depot.new }
{
    let part = match part_in(alloc, depot, start.part.as_str()) {
        Ok((part, _)) => part,
        Err(fault) => return refused(start.part.as_str(), fault),
    };
    match begun(alloc, part) {
        Ok(store) => stored(alloc, start.store.as_str(), &store),
        Err(fault) => refused(start.part.as_str(), fault),
    }
}

/// The answer of `install`.
pub fn answer_install<'a, D: Depot>(
    alloc: Global,
    install: &Install<'a>,
    depot: &mut D,
) -> Result<Answer<'a>, NoMemory>
    ensures reply { IfOk result (λ a. IsReply (Command.Install install.now) (D.files depot.old)
        (WhichFailed D.Depot depot.old depot.new) (reply_fields a)) }
    ensures only_reads { OnlyReads D.Depot depot.old depot.new }
{
    let store = match store_in(alloc, depot, install.store.as_str()) {
        Ok(store) => store,
        Err(fault) => return refused(install.store.as_str(), fault),
    };
    let part = match part_in(alloc, depot, install.part.as_str()) {
        Ok((part, _)) => part,
        Err(fault) => return refused(install.part.as_str(), fault),
    };
    match installed(store, part) {
        Ok(store) => stored(alloc, install.new_store.as_str(), &store),
        Err(fault) => refused(install.part.as_str(), fault),
    }
}
