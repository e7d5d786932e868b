//! A law of the definitions, apart from all code: something comes of each job behind each ledger.

ghost use Rattle.std.specs.Prelude.{Result};
ghost use Rattle.job_core.specs.JobFields.{JobFields};
ghost use Rattle.ledger_core.specs.LedgerFields.{LedgerFields};
ghost use Rattle.publication_core.specs.declared.fault.PublishFault.{PublishFault};
ghost use Rattle.publication_core.specs.Publishing.{PublicationFields, Publishes};

/// Of each job behind each ledger a publication is there, or why there is none: a refusal, or the first issuer without
/// a block. Want of memory is neither.
pub fn a_publication_or_a_refusal()
    ensures { (ledger : LedgerFields) (job : JobFields) → (o : Result PublicationFields PublishFault) × Publishes ledger job o }
{}
