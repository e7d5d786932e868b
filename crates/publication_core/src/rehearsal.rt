//! A publisher and a client in one: each job is admitted, built and installed behind those before it.

ghost use Rattle.std.specs.Prelude.{◌≡◌, ◌≢◌, ◌≤◌, [], Err, IfOk, IfErr, IfSome, IsNone};
ghost use Rattle.ident_core.specs.declared.bounds.TheConstants.{MAX_WORKERS};
ghost use Rattle.job_core.specs.JobFields.{fields_of_job};
ghost use Rattle.job_core.specs.Fitting.{FitsPublishing, IsWithinLimits};
ghost use Rattle.universe_core.specs.Ledgers.{no_ledger, ledger_of};
ghost use Rattle.publication_core.specs.Histories.{History, of_jobs, releases_of};
ghost use Rattle.publication_core.specs.Publishing.{Publishes};
ghost use Rattle.publication_core.specs.Rehearsing.{of_none, Adds, IsOf};

use crate::chain_laws::parts_are_chains;
use crate::fault::PublishFault;
use crate::laws::histories_are_published;
use crate::publication::Publication;
use crate::publish::{publish_after, publish_first};
use builder_core::Gate;
use job_core::{Job, Limits};
use ledger_core::Ledger;
use std::alloc::Global;
use std::marker::Model;
use std::thread::Threads;
use store_core::{StartFault, Store, chains_grow};
use universe_core::Counts;

/// What is reported of a job that was rehearsed.
#[derive(Clone, Copy, Debug, PartialEq, Eq)]
pub struct Report {
    pub epoch: u64,
    /// The place of its part in the chain, counted from 0.
    pub place: u32,
    pub counts: Counts,
}

/// What the jobs so far have published: the store of their parts, and the ledger behind the newest.
#[derive(Drop)]
pub struct Rehearsal {
    published: Option<(Store, Ledger)>,
}

impl Model for Rehearsal {
    ghost use Rattle.publication_core.specs.Histories.{History};
    ghost use Rattle.publication_core.specs.Rehearsing.{RehearsalFields, IsOf, fields_of};

    ghost Value = { RehearsalFields };

    ghost view = { λ r. fields_of r.published };

    ghost invariant = { λ r. (h : History) × IsOf h (fields_of r.published) };
}

fn report_on(publication: &Publication) -> Report
    ensures { result ≡ record {
      epoch = publication.now.sealed.part.head.epoch;
      place = publication.now.place;
      counts = publication.now.counts;
    } }
{
    Report {
        epoch: publication.sealed().part().head().epoch(),
        place: publication.place(),
        counts: *publication.counts(),
    }
}

impl Rehearsal {
    /// The rehearsal of no job.
    pub fn new() -> Rehearsal
        ensures value { result ≡ of_none }
        ensures is_of { IsOf (of_jobs []) result }
    {
        histories_are_published();
        Rehearsal { published: None }
    }

    /// The rehearsal of a first job.
    fn begun<R: Threads + Sync, G: Gate + Sync>(
        rt: &R,
        alloc: Global,
        gate: &G,
        job: Job,
        workers: u32,
    ) -> Result<(Rehearsal, Report), PublishFault>
        requires fits { FitsPublishing (fields_of_job job) }
        requires within { IsWithinLimits Limits.PUBLISHED (fields_of_job job) }
        requires some_workers { 1 ≤ workers }
        requires few_workers { workers ≤ MAX_WORKERS }
        ensures added { IfOk result (λ x. (h : History) → IsOf h of_none → Adds h (fields_of_job job) x.0 x.1) }
        ensures refused { IfErr result (λ e. e ≢ PublishFault.NoMemory → Publishes no_ledger (fields_of_job job) (Err e)) }
    {
        histories_are_published();
        parts_are_chains();
        chains_grow();
        let publication = publish_first(rt, alloc, gate, job, workers)?;
        let report = report_on(&publication);
        let (sealed, ledger) = publication.into_sealed_and_ledger();
        match Store::start(alloc, sealed) {
            Ok(store) => Ok((
                Rehearsal {
                    published: Some((store, ledger)),
                },
                report,
            )),
            Err(StartFault::NotSnapshot(_)) => unreachable!(),
            Err(StartFault::NoMemory(_)) => Err(PublishFault::NoMemory),
        }
    }

    /// The rehearsal of a later job, behind this store and this ledger.
    fn followed<R: Threads + Sync, G: Gate + Sync>(
        rt: &R,
        alloc: Global,
        gate: &G,
        store: Store,
        ledger: Ledger,
        job: Job,
        workers: u32,
    ) -> Result<(Rehearsal, Report), PublishFault>
        requires held { (h : History) × IsOf h (record { parts = store; ledger = ledger }) }
        requires fits { FitsPublishing (fields_of_job job) }
        requires within { IsWithinLimits Limits.PUBLISHED (fields_of_job job) }
        requires some_workers { 1 ≤ workers }
        requires few_workers { workers ≤ MAX_WORKERS }
        ensures added { IfOk result (λ x. (h : History)
            → IsOf h (record { parts = store; ledger = ledger })
            → Adds h (fields_of_job job) x.0 x.1) }
        ensures refused { IfErr result (λ e. e ≢ PublishFault.NoMemory → Publishes ledger (fields_of_job job) (Err e)) }
    {
        histories_are_published();
        parts_are_chains();
        chains_grow();
        let publication = publish_after(rt, alloc, gate, ledger, job, workers)?;
        let report = report_on(&publication);
        let (sealed, ledger) = publication.into_sealed_and_ledger();
        let mut store = store;
        match store.install(sealed) {
            Ok(()) => Ok((
                Rehearsal {
                    published: Some((store, ledger)),
                },
                report,
            )),
            Err(_) => unreachable!(),
        }
    }

    /// The rehearsal with a job behind the others, built by 1 to 64 workers, each of which enters the gate before it
    /// builds a leaf of an issuer's block; and what is reported of the job. An `Err` says why the job isn't published.
    pub fn with_job<R: Threads + Sync, G: Gate + Sync>(
        self,
        rt: &R,
        alloc: Global,
        gate: &G,
        job: Job,
        workers: u32,
    ) -> Result<(Rehearsal, Report), PublishFault>
        requires fits { FitsPublishing (fields_of_job job) }
        requires within { IsWithinLimits Limits.PUBLISHED (fields_of_job job) }
        requires some_workers { 1 ≤ workers }
        requires few_workers { workers ≤ MAX_WORKERS }
        ensures added { IfOk result (λ x. (h : History) → IsOf h self → Adds h (fields_of_job job) x.0 x.1) }
        ensures refused { IfErr result (λ e. (h : History) → IsOf h self → e ≢ PublishFault.NoMemory
            → Publishes (ledger_of (releases_of h)) (fields_of_job job) (Err e)) }
    {
        match self.published {
            None => Rehearsal::begun(rt, alloc, gate, job, workers),
            Some((store, ledger)) => {
                Rehearsal::followed(rt, alloc, gate, store, ledger, job, workers)
            }
        }
    }

    /// The store that a client has which installed the parts in order. None is that of no job.
    pub fn store(&self) -> Option<&Store>
        ensures some { IfSome result (λ store. store.now ≡ self.now.parts) }
        ensures none { IsNone result → self.now.parts ≡ [] }
    {
        match &self.published {
            None => None,
            Some((store, _)) => Some(store),
        }
    }
}
