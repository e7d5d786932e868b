//! What follows for every command, whatever its files hold.

ghost use Rattle.std.specs.Prelude.{◌≡◌, ◌≢◌, ◌↔◌, ℕ, List, [], Result};
ghost use Rattle.input_core.specs.Queries.{Query};
ghost use Rattle.word_core.specs.declared.command.Command.{Command};
ghost use Rattle.word_core.specs.Names.{HasFewJobs, inputs_of, outputs_of};
ghost use Rattle.word_core.specs.Words.{command_of};
ghost use Rattle.input_core.specs.Inputs.{Inputs};
ghost use Rattle.command_core.specs.ReplyFields.{Done, NamedFault, ReplyFields};
ghost use Rattle.command_core.specs.Commands.{Makes, Rehearses, rehearsed};
ghost use Rattle.command_core.specs.Workers.{with_workers};
ghost use Rattle.command_core.specs.Steps.{RehearsesOn};
ghost use Rattle.command_core.specs.Replies.{AreOctets, IsReplyOver};

use audit_core::{audits_are_unique, audits_exist};
use publication_core::{
    a_publication_or_a_refusal, histories_are_published, one_thing_comes_of_a_rebase,
    publications_are_unique,
};

/// One thing comes of a command and its inputs, and there is one reply to it at most.
pub fn replies_are_unique()
    ensures outcome { (command : Command) (inputs : Inputs) (a b : Result Done NamedFault)
        → Makes command inputs a → Makes command inputs b → a ≡ b }
    ensures reply { (command : Command) (inputs : Inputs) (a b : ReplyFields)
        → IsReplyOver command inputs a → IsReplyOver command inputs b → a ≡ b }
{
    publications_are_unique();
    histories_are_published();
    one_thing_comes_of_a_rebase();
    audits_are_unique();
}

/// Something comes of each command and its inputs, and so there is a reply to it, whatever octets the inputs hold and
/// whether or not they can be read. So no definition is without a value at some input, which want of memory would hide.
/// An audit has as few jobs as words name.
pub fn replies_exist()
    ensures outcome { (command : Command) (inputs : Inputs) → command ≢ Command.Usage
        → HasFewJobs command → AreOctets inputs
        → (o : Result Done NamedFault) × Makes command inputs o }
    ensures reply { (command : Command) (inputs : Inputs)
        → HasFewJobs command → AreOctets inputs
        → (reply : ReplyFields) × IsReplyOver command inputs reply }
    ensures words { (words : List (List ℕ)) → HasFewJobs (command_of words) }
{
    a_publication_or_a_refusal();
    histories_are_published();
    one_thing_comes_of_a_rebase();
    audits_exist();
    job_core::jobs_that_are_read_fit();
}

/// Commands that differ in WORKERS alone make the same of the same inputs, are answered alike over them, and read and
/// write files of the same names. So no byte that is published depends on how many workers there are.
pub fn workers_are_free()
    ensures same { (n : ℕ) (command : Command) (inputs : Inputs) (o : Result Done NamedFault)
        → Makes command inputs o ↔ Makes (with_workers n command) inputs o }
    ensures reply { (n : ℕ) (command : Command) (inputs : Inputs) (reply : ReplyFields)
        → IsReplyOver command inputs reply ↔ IsReplyOver (with_workers n command) inputs reply }
    ensures reads { (n : ℕ) (command : Command) → inputs_of (with_workers n command) ≡ inputs_of command }
    ensures writes { (n : ℕ) (command : Command) → outputs_of (with_workers n command) ≡ outputs_of command }
{}

/// What comes of files that are rehearsed, stated of them all, is what comes of them stated file by file.
pub fn rehearsals_go_file_by_file()
    ensures { (queries : List Query) (names : List (List ℕ)) (inputs : Inputs)
        (o : Result Done NamedFault)
        → Rehearses queries names inputs o ↔ RehearsesOn queries [] names inputs o }
{}
