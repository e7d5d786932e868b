//! What is published of a job, and of a ledger that begins a chain anew: the part, the next ledger and the counts; what
//! histories publish; and a history published and installed in memory.
#![tactic(auto)]

mod base;
mod base_fault;
mod base_laws;
mod base_publishing;
mod chain_laws;
mod enrolling;
mod existence;
mod fault;
mod keeping;
mod laws;
mod ledger_laws;
mod left_out;
mod publication;
mod publish;
mod rebased;
mod rebasing;
mod rehearsal;
mod sound_laws;
mod verdict_laws;

pub use base::{BaseCounts, BasePublication};
pub use base_fault::BaseFault;
pub use base_laws::{
    bases_are_published, issuers_that_are_left_out_come_back, ledgers_are_cut,
    one_thing_comes_of_a_rebase, rebases_keep_verdicts,
};
pub use base_publishing::publish_base;
pub use builder_core::{Gate, Open};
pub use chain_laws::parts_are_chains;
pub use existence::a_publication_or_a_refusal;
pub use fault::PublishFault;
pub use laws::{histories_are_published, publications_are_unique, what_can_be_is_published};
pub use ledger_laws::ledgers_are_read_back;
pub use left_out::{Issuers, LeftOut};
pub use publication::Publication;
pub use publish::{publish_after, publish_first};
pub use rebased::Rebased;
pub use rebasing::rebase;
pub use rehearsal::{Rehearsal, Report};
pub use sound_laws::histories_are_sound;
pub use verdict_laws::verdicts_are_the_truth;
