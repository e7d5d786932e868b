//! What the words of a call ask for. The words lend the names of files.

ghost use Rattle.std.specs.Prelude.{◌≡◌, [], ◌∷◌};
ghost use Rattle.word_core.specs.Words.{are_apart};

use crate::bounded::{Listed, SampleCount, Workers};
use crate::words::are_apart;
use ident_core::{Identity, MAX_PARTS, Sighting};
use octets_core::Key32;
use place_core::{By, PlaceCount};
use std::marker::Model;

/// The most sightings that one query names.
pub const MAX_SIGHTINGS: usize = 64;

/// The most pages that one call gathers.
pub const MAX_PAGES: usize = 1024;

/// The most pieces that one call merges, or into which it cuts a job.
pub const MAX_PIECES: usize = 1024;

/// The most issuers that one call leaves out.
pub const MAX_WITHOUT: usize = 1024;

/// The name of a file, which the words of a call lend.
#[derive(Debug, Drop)]
pub struct FileName<'a> {
    text: &'a str,
}

impl<'a> Model for FileName<'a> {
    ghost use Rattle.std.specs.Prelude.{List, ℕ};

    ghost Value = { List ℕ };

    ghost view = { λ n. n.text.now };
}

impl<'a> FileName<'a> {
    ghost use Rattle.std.specs.Prelude.{◌≡◌};

    /// The name of this text.
    pub fn new(text: &'a str) -> FileName<'a>
        ensures { result ≡ text.now }
    {
        FileName { text }
    }

    /// The same name.
    fn again(&self) -> FileName<'a>
        ensures { result ≡ self.now }
    {
        FileName { text: self.text }
    }

    /// The name's text.
    pub fn as_str(&self) -> &'a str
        ensures { result.now ≡ self.now }
    {
        self.text
    }
}

/// A question about one certificate, asked of the store in a file.
#[derive(Debug, Drop)]
pub struct Query<'a> {
    pub store: FileName<'a>,
    pub id: Identity,
    pub sightings: Listed<Sighting, 1, MAX_SIGHTINGS>,
}

/// A question about the certificate in one file, issued by the one in another, asked of the store in a third.
#[derive(Debug, Drop)]
pub struct QueryCert<'a> {
    pub store: FileName<'a>,
    pub cert: FileName<'a>,
    pub issuer_cert: FileName<'a>,
}

/// A job to be published as the first of a chain.
#[derive(Debug, Drop)]
pub struct Snapshot<'a> {
    pub job: FileName<'a>,
    pub part: FileName<'a>,
    pub ledger: FileName<'a>,
    pub workers: Workers,
}

/// A job to be published behind the part that a ledger names.
#[derive(Debug, Drop)]
pub struct Delta<'a> {
    pub job: FileName<'a>,
    pub ledger: FileName<'a>,
    pub part: FileName<'a>,
    pub new_ledger: FileName<'a>,
    pub workers: Workers,
}

/// What a chain that begins anew leaves out of its ledger.
#[derive(Debug, Drop)]
pub enum Left {
    /// These issuers, if there are some, and their identities.
    Issuers(Listed<Key32, 0, MAX_WITHOUT>),
    /// What all places have but this one, which is below the count.
    OtherPlaces {
        by: By,
        count: PlaceCount,
        place: u32,
    },
}

/// A chain to be begun anew from a ledger, without what has expired before a moment, in milliseconds, and without what
/// else is left out.
#[derive(Debug, Drop)]
pub struct Rebase<'a> {
    pub ledger: FileName<'a>,
    pub moment: u64,
    pub part: FileName<'a>,
    pub new_ledger: FileName<'a>,
    pub workers: Workers,
    pub left: Left,
}

/// A part that a store is begun with.
#[derive(Debug, Drop)]
pub struct Start<'a> {
    pub part: FileName<'a>,
    pub store: FileName<'a>,
}

/// A part that is added to a store.
#[derive(Debug, Drop)]
pub struct Install<'a> {
    pub store: FileName<'a>,
    pub part: FileName<'a>,
    pub new_store: FileName<'a>,
}

/// Jobs that are published one after the other, with no file written, and queries that are asked of the store they
/// make.
#[derive(Debug, Drop)]
pub struct Rehearse<'a> {
    pub queries: FileName<'a>,
    pub workers: Workers,
    pub jobs: Listed<FileName<'a>, 1, MAX_PARTS>,
}

/// Jobs by which a store is audited, whoever built it, in the order in which they are admitted.
#[derive(Debug, Drop)]
pub struct Audit<'a> {
    pub store: FileName<'a>,
    pub jobs: Listed<FileName<'a>, 1, MAX_PARTS>,
}

/// A job that is made from a number.
#[derive(Debug, Drop)]
pub struct Sample<'a> {
    pub number: u64,
    pub count: SampleCount,
    pub job: FileName<'a>,
}

/// Pages of the log with this id, whose entries are put behind those of the job in the file `head`. The longer job is
/// written to the file `job`.
#[derive(Debug, Drop)]
pub struct Gather<'a> {
    pub head: FileName<'a>,
    pub log: Key32,
    pub job: FileName<'a>,
    pub pages: Listed<FileName<'a>, 1, MAX_PAGES>,
}

/// Pieces of a job, whose entries are put behind those of the job in the file `head`. The longer job is written to the
/// file `job`.
#[derive(Debug, Drop)]
pub struct Merge<'a> {
    pub head: FileName<'a>,
    pub job: FileName<'a>,
    pub pieces: Listed<FileName<'a>, 1, MAX_PIECES>,
}

/// A job that is cut by issuers or identities into so many pieces, each to a file.
#[derive(Debug, Drop)]
pub struct Cut<'a> {
    pub by: By,
    pub job: FileName<'a>,
    pub pieces: Listed<FileName<'a>, 1, MAX_PIECES>,
}

/// The place of a certificate among so many.
#[derive(Debug, Drop)]
pub struct Place {
    pub by: By,
    pub id: Identity,
    pub count: PlaceCount,
}

/// What the words of a call ask for. The words lend the names of files.
#[derive(Debug, Drop)]
pub enum Command<'a> {
    /// The words are no command.
    Usage,
    /// What the parts of a store say of a certificate.
    Query(Query<'a>),
    /// What the parts of a store say of a certificate that a file holds.
    QueryCert(QueryCert<'a>),
    /// Whether a file is a part.
    Check(FileName<'a>),
    /// What a part holds.
    Show(FileName<'a>),
    /// To publish a job as the first of a chain: its part and its ledger.
    Snapshot(Snapshot<'a>),
    /// To publish a job behind the part before: its part and its ledger.
    Delta(Delta<'a>),
    /// To begin a chain anew from a ledger, without what has expired and what else is left out: its part and its
    /// ledger.
    Rebase(Rebase<'a>),
    /// To begin a store with a part.
    Start(Start<'a>),
    /// To add a part to a store.
    Install(Install<'a>),
    /// To say what a history of jobs comes to, and what its queries answer.
    Rehearse(Rehearse<'a>),
    /// To write the job that a number and a count stand for.
    Sample(Sample<'a>),
    /// To write a job with the entries of a log's pages behind its own.
    Gather(Gather<'a>),
    /// To write a job with the entries of pieces behind its own.
    Merge(Merge<'a>),
    /// To write the pieces of a job.
    Cut(Cut<'a>),
    /// Whether a store, whoever built it, says the truth of what jobs accept.
    Audit(Audit<'a>),
    /// In which of so many histories a certificate is.
    Place(Place),
}

/// Whether a longer job has neither the name of its head nor that of a file whose entries are put behind it.
fn is_longer_apart(head: &FileName<'_>, job: &FileName<'_>, files: &[FileName<'_>]) -> bool
    ensures { result ≡ are_apart (head.now ∷ files.now) (job.now ∷ []) }
{
    are_apart(&[head.again()], &[job.again()]) && are_apart(files, &[job.again()])
}

impl Command<'_> {
    ghost use Rattle.std.specs.Prelude.{◌≡◌};
    ghost use Rattle.word_core.specs.Words.{are_apart, inputs_of, outputs_of};

    /// Whether no file that the command writes has the name of another that it writes or of one that it reads.
    pub(crate) fn is_apart(&self) -> bool
        ensures { result ≡ are_apart (inputs_of self.now) (outputs_of self.now) }
    {
        match self {
            Command::Snapshot(asked) => are_apart(
                &[asked.job.again()],
                &[asked.part.again(), asked.ledger.again()],
            ),
            Command::Delta(asked) => are_apart(
                &[asked.job.again(), asked.ledger.again()],
                &[asked.part.again(), asked.new_ledger.again()],
            ),
            Command::Rebase(asked) => are_apart(
                &[asked.ledger.again()],
                &[asked.part.again(), asked.new_ledger.again()],
            ),
            Command::Start(asked) => are_apart(&[asked.part.again()], &[asked.store.again()]),
            Command::Install(asked) => are_apart(
                &[asked.store.again(), asked.part.again()],
                &[asked.new_store.again()],
            ),
            Command::Gather(asked) => {
                is_longer_apart(&asked.head, &asked.job, asked.pages.as_slice())
            }
            Command::Merge(asked) => {
                is_longer_apart(&asked.head, &asked.job, asked.pieces.as_slice())
            }
            Command::Cut(asked) => are_apart(&[asked.job.again()], asked.pieces.as_slice()),
            _ => true,
        }
    }
}
