//! The commands that ask: what each answers, from what its file holds.

ghost use Rattle.std.specs.Prelude.{◌≡◌, [], IfOk, OnErr, IsErr};
ghost use Rattle.outside_core.specs.Effects.{OnlyReads};
ghost use Rattle.word_core.specs.declared.command.Command.{Command};
ghost use Rattle.command_core.specs.Answering.{reply_fields, scan_reply as reply_of_scan};
ghost use Rattle.command_core.specs.Replies.{refusal, with_files, IsReply};
ghost use Rattle.outside_core.specs.Reads.{WhichFailed};

use crate::answer::Answer;
use ident_core::Identity;
use input_core::{
    Certificate, FileFault, ScanFault, certificate_in, issuer_in, part_in, scan_file, store_in,
};
use line_core::checked;
use octets_core::NoMemory;
use outside_core::Depot;
use part_codec::PartNote;
use reply_core::Reply;
use std::alloc::Global;
use word_core::command::{FileName, Query, QueryCert};

/// The answer about what is wrong with the file of this name. No memory is taken: want of it is handed on.
pub(crate) fn refused(name: &str, fault: FileFault) -> Result<Answer<'_>, NoMemory>
    ensures ok { IfOk result (λ a. reply_fields a ≡ refusal name.now fault) }
    ensures memory { fault ≡ FileFault.NoMemory → IsErr result }
    ensures no_other { OnErr result (fault ≡ FileFault.NoMemory) }
{
    Ok(Answer::Reply(Reply::refusal(name, fault)?))
}

/// The answer to a query.
pub fn answer_query<'a, D: Depot>(
    alloc: Global,
    query: &Query<'a>,
    depot: &mut D,
) -> Result<Answer<'a>, NoMemory>
    ensures reply { IfOk result (λ a. IsReply (Command.Query query.now) (D.files depot.old)
        (WhichFailed D.Depot depot.old depot.new) (reply_fields a)) }
    ensures only_reads { OnlyReads D.Depot depot.old depot.new }
{
    match store_in(alloc, depot, query.store.as_str()) {
        Ok(store) => {
            let verdict = store.says(&query.id, query.sightings.as_slice());
            Ok(Answer::Reply(Reply::verdict(verdict)))
        }
        Err(fault) => refused(query.store.as_str(), fault),
    }
}

/// The answer to a query of a certificate in a file.
pub fn answer_query_cert<'a, D: Depot>(
    alloc: Global,
    query: &QueryCert<'a>,
    depot: &mut D,
) -> Result<Answer<'a>, NoMemory>
    ensures reply { IfOk result (λ a. IsReply (Command.QueryCert query.now) (D.files depot.old)
        (WhichFailed D.Depot depot.old depot.new) (reply_fields a)) }
    ensures only_reads { OnlyReads D.Depot depot.old depot.new }
{
    let store = match store_in(alloc, depot, query.store.as_str()) {
        Ok(store) => store,
        Err(fault) => return refused(query.store.as_str(), fault),
    };
    let Certificate { serial, scts } = match certificate_in(alloc, depot, query.cert.as_str()) {
        Ok(cert) => cert,
        Err(fault) => return refused(query.cert.as_str(), fault),
    };
    match issuer_in(alloc, depot, query.issuer_cert.as_str()) {
        Ok(issuer) => {
            let id = Identity { issuer, serial };
            let verdict = store.says(&id, scts.sightings());
            Ok(Answer::Reply(Reply::verdict(verdict)))
        }
        Err(fault) => refused(query.issuer_cert.as_str(), fault),
    }
}

/// The reply about the file of this name, which was scanned.
fn scan_reply(name: &str, scan: Result<PartNote, ScanFault>) -> Reply<'_>
    ensures { with_files [] result ≡ reply_of_scan name.now scan }
{
    match scan {
        Ok(note) => Reply::done(checked(&note)),
        Err(ScanFault::Unread) => Reply::unread(name),
        Err(ScanFault::Layout(fault)) => Reply::bad_layout(name, fault),
    }
}

/// The answer of `check`. No memory is taken.
pub fn answer_check<'a, D: Depot>(name: &FileName<'a>, depot: &mut D) -> Answer<'a>
    ensures reply { IsReply (Command.Check name.now) (D.files depot.old)
        (WhichFailed D.Depot depot.old depot.new) (reply_fields result) }
    ensures only_reads { OnlyReads D.Depot depot.old depot.new }
{
    let scan = scan_file(depot, name.as_str());
    Answer::Reply(scan_reply(name.as_str(), scan))
}

/// The answer of `show`.
pub fn answer_show<'a, D: Depot>(
    alloc: Global,
    name: &FileName<'a>,
    depot: &mut D,
) -> Result<Answer<'a>, NoMemory>
    ensures reply { IfOk result (λ a. IsReply (Command.Show name.now) (D.files depot.old)
        (WhichFailed D.Depot depot.old depot.new) (reply_fields a)) }
    ensures only_reads { OnlyReads D.Depot depot.old depot.new }
{
    match part_in(alloc, depot, name.as_str()) {
        Ok((sealed, _)) => Ok(Answer::Part(sealed)),
        Err(fault) => refused(name.as_str(), fault),
    }
}
