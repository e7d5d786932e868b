//! How answers are sent, once all has been read and made.

ghost use Rattle.std.specs.Prelude.{◌≡◌, ◌≤◌, [], ◌∷◌, false};
ghost use Rattle.outside_core.specs.Effects.{OnlyWrites};
ghost use Rattle.command_core.specs.Statuses as statuses;
ghost use Rattle.command_core.specs.Answering.{reply_fields};
ghost use Rattle.command_core.specs.Replies.{with_files};
ghost use Rattle.clubcard_top.specs.Sending.{printing, writing, IsPrinted, IsSent};

use command_core::{Answer, Output, SampleOutput, write_outputs};
use line_core::{Message, Status, about_file, write_sealed};
use outside_core::{Depot, Failed, Sink, write_all};
use part_codec::Sealed;
use reply_core::Reply;
use std::thread::Threads;

/// Sends one text, behind which the call ends so.
fn send_text<K: Sink>(text: &[u8], status: Status, out: &mut K) -> Status
    ensures sent { IsPrinted (printing K.Sink out.old out.new result.0)
        (record { status = status.0; text = text.now; outputs = [] }) }
    ensures later { K.faults out.old ≤ K.faults out.new }
{
    match write_all(out, text) {
        Ok(()) => status,
        Err(Failed) => Status::WRITE_FAULT,
    }
}

/// Sends one line, behind which the call ends so.
fn send_message<K: Sink>(message: &Message<'_>, status: Status, out: &mut K) -> Status
    ensures sent { IsPrinted (printing K.Sink out.old out.new result.0)
        (record { status = status.0; text = message.now; outputs = [] }) }
    ensures later { K.faults out.old ≤ K.faults out.new }
{
    match message.write(out) {
        Ok(()) => status,
        Err(Failed) => Status::WRITE_FAULT,
    }
}

/// Sends a reply.
fn send_reply<K: Sink>(reply: &Reply<'_>, out: &mut K) -> Status
    ensures sent { IsPrinted (printing K.Sink out.old out.new result.0) (with_files [] reply.now) }
    ensures own { statuses.is_one_of statuses.unsaid reply.now.status ≡ false }
    ensures later { K.faults out.old ≤ K.faults out.new }
{
    let status = reply.status();
    send_message(reply.message(), status, out)
}

/// Sends what a part holds.
fn send_part<K: Sink>(sealed: &Sealed, out: &mut K) -> Status
    ensures sent { IsPrinted (printing K.Sink out.old out.new result.0) (reply_fields (Answer.Part sealed.now)) }
    ensures later { K.faults out.old ≤ K.faults out.new }
{
    match write_sealed(sealed, out) {
        Ok(()) => Status::DONE,
        Err(_) => Status::WRITE_FAULT,
    }
}

/// Writes the outputs, and then sends the reply, or the line that says which can't be written.
fn send_files<R: Threads, D: Depot, K: Sink>(
    rt: &R,
    outputs: &[Output<'_>],
    reply: &Reply<'_>,
    depot: &mut D,
    out: &mut K,
) -> Status
    ensures ends { IsSent (writing D.Depot depot.old depot.new) (printing K.Sink out.old out.new result.0)
        (with_files outputs.now reply.now) }
    ensures own { statuses.is_one_of statuses.unsaid reply.now.status ≡ false }
    ensures quiet { outputs.now ≡ [] → D.write_faults depot.new ≡ D.write_faults depot.old }
    ensures only_writes { OnlyWrites D.Depot depot.old depot.new }
    ensures later_out { K.faults out.old ≤ K.faults out.new }
{
    let status = reply.status();
    match write_outputs(rt, outputs, depot) {
        None => send_message(reply.message(), status, out),
        Some(name) => send_message(&about_file("write-fault", name), Status::WRITE_FAULT, out),
    }
}

/// Writes a job as it is made, and then sends the reply, or the line that says that it can't be written.
fn send_sample<D: Depot, K: Sink>(
    output: SampleOutput<'_>,
    reply: &Reply<'_>,
    depot: &mut D,
    out: &mut K,
) -> Status
    ensures ends { IsSent (writing D.Depot depot.old depot.new) (printing K.Sink out.old out.new result.0)
        (with_files (output.entry ∷ []) reply.now) }
    ensures own { statuses.is_one_of statuses.unsaid reply.now.status ≡ false }
    ensures only_writes { OnlyWrites D.Depot depot.old depot.new }
    ensures later_out { K.faults out.old ≤ K.faults out.new }
{
    let status = reply.status();
    let name = output.name();
    match output.write(depot) {
        Ok(()) => send_message(reply.message(), status, out),
        Err(Failed) => send_message(&about_file("write-fault", name), Status::WRITE_FAULT, out),
    }
}

/// Sends an answer. No memory is wanted.
pub fn send<R: Threads, D: Depot, K: Sink>(
    rt: &R,
    answer: Answer<'_>,
    depot: &mut D,
    out: &mut K,
) -> Status
    ensures ends { IsSent (writing D.Depot depot.old depot.new) (printing K.Sink out.old out.new result.0)
        (reply_fields answer.entry) }
    ensures own { statuses.is_one_of statuses.unsaid (reply_fields answer.entry).status ≡ false }
    ensures quiet { (reply_fields answer.entry).outputs ≡ [] → D.write_faults depot.new ≡ D.write_faults depot.old }
    ensures only_writes { OnlyWrites D.Depot depot.old depot.new }
    ensures later_out { K.faults out.old ≤ K.faults out.new }
{
    match answer {
        Answer::Reply(reply) => send_reply(&reply, out),
        Answer::Lines(text) => send_text(&text, Status::DONE, out),
        Answer::Part(sealed) => send_part(&sealed, out),
        Answer::Files(outputs, reply) => send_files(rt, &outputs, &reply, depot, out),
        Answer::Sample(output, reply) => send_sample(output, &reply, depot, out),
    }
}
