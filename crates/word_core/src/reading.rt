//! The commands that words spell together (docs/FORMATS.md, "Words").

ghost use Rattle.std.specs.Prelude.{◌≡◌, ℕ, List, ◌∷◌, IfOk, IsOk, map, string_bytes};
ghost use Rattle.word_core.specs.Words.{command_of, asked_of, writes_of, query_of, query_cert_of, name_alone};
ghost use Rattle.word_core.specs.Words.{snapshot_of, delta_of, rebase_of, rebase_without_of, start_of, install_of};
ghost use Rattle.word_core.specs.Words.{names_within, rehearse_of, audit_of, sample_of, gather_of, merge_of, cut_of};
ghost use Rattle.word_core.specs.Words.{split_of, place_of};
ghost use Rattle.word_core.specs.declared.command.Left.TheVariants as lefts;

use crate::bounded::Listed;
use crate::command::{
    Audit, Command, Cut, Delta, FileName, Gather, Install, Left, MAX_SIGHTINGS, MAX_WITHOUT, Merge,
    Place, Query, QueryCert, Rebase, Rehearse, Sample, Snapshot, Start,
};
use crate::words::{
    by_word, count_word, key_word, number_word, place_word, places_word, read_keys, read_name,
    read_names, read_pairs, read_two_names, serial_word, workers_word,
};
use ident_core::Identity;
use octets_core::{Key32, NoMemory};
use std::alloc::Global;

/// The query that words spell, if they spell one.
pub(crate) fn read_query(alloc: Global, words: &[String]) -> Result<Option<Query<'_>>, NoMemory>
    ensures { IfOk result (λ q. q ≡ query_of (map string_bytes words.now)) }
{
    let [store, issuer, serial, pairs @ ..] = words else {
        return Ok(None);
    };
    let Some(issuer) = key_word(issuer.as_str()) else {
        return Ok(None);
    };
    let Some(serial) = serial_word(serial.as_str()) else {
        return Ok(None);
    };
    if pairs.len() < 2 || pairs.len() > 2 * MAX_SIGHTINGS {
        return Ok(None);
    }
    let Some(sightings) = read_pairs(alloc, pairs)? else {
        return Ok(None);
    };
    let Some(store) = read_name(store.as_str()) else {
        return Ok(None);
    };
    Ok(Some(Query {
        store,
        id: Identity { issuer, serial },
        sightings: Listed::new(sightings),
    }))
}

/// The query of a certificate in a file that words spell, if they spell one.
fn read_query_cert(words: &[String]) -> Option<QueryCert<'_>>
    ensures { result ≡ query_cert_of (map string_bytes words.now) }
{
    let [store, cert, issuer_cert] = words else {
        return None;
    };
    let store = read_name(store.as_str())?;
    let (cert, issuer_cert) = read_two_names(cert.as_str(), issuer_cert.as_str())?;
    Some(QueryCert {
        store,
        cert,
        issuer_cert,
    })
}

/// The name that words spell, if they are one word that spells one.
fn read_name_alone(words: &[String]) -> Option<FileName<'_>>
    ensures { result ≡ name_alone (map string_bytes words.now) }
{
    match words {
        [word] => read_name(word.as_str()),
        _ => None,
    }
}

/// The first part of a chain that words spell, if they spell one.
fn read_snapshot(words: &[String]) -> Option<Snapshot<'_>>
    ensures { result ≡ snapshot_of (map string_bytes words.now) }
{
    let [job, part, ledger, workers] = words else {
        return None;
    };
    let job = read_name(job.as_str())?;
    let (part, ledger) = read_two_names(part.as_str(), ledger.as_str())?;
    let workers = workers_word(workers.as_str())?;
    Some(Snapshot {
        job,
        part,
        ledger,
        workers,
    })
}

/// The later part of a chain that words spell, if they spell one.
fn read_delta(words: &[String]) -> Option<Delta<'_>>
    ensures { result ≡ delta_of (map string_bytes words.now) }
{
    let [job, ledger, part, new_ledger, workers] = words else {
        return None;
    };
    let (job, ledger) = read_two_names(job.as_str(), ledger.as_str())?;
    let (part, new_ledger) = read_two_names(part.as_str(), new_ledger.as_str())?;
    let workers = workers_word(workers.as_str())?;
    Some(Delta {
        job,
        ledger,
        part,
        new_ledger,
        workers,
    })
}

/// The chain begun anew, which leaves this out, that words spell, if they spell one.
fn rebase_named<'a>(
    ledger: &'a str,
    moment: &str,
    others: &'a [String],
    left: Left,
) -> Option<Rebase<'a>>
    ensures { result ≡ rebase_of (ledger.now ∷ moment.now ∷ map string_bytes others.now) left }
{
    let [part, new_ledger, workers] = others else {
        return None;
    };
    let ledger = read_name(ledger)?;
    let moment = number_word(moment)?;
    let (part, new_ledger) = read_two_names(part.as_str(), new_ledger.as_str())?;
    let workers = workers_word(workers.as_str())?;
    Some(Rebase {
        ledger,
        moment,
        part,
        new_ledger,
        workers,
        left,
    })
}

/// The chain begun anew without these issuers that words spell, if they spell one.
fn read_rebase(words: &[String], without: Listed<Key32, 0, MAX_WITHOUT>) -> Option<Rebase<'_>>
    ensures { result ≡ rebase_of (map string_bytes words.now) (lefts.Issuers without) }
{
    let [ledger, moment, others @ ..] = words else {
        return None;
    };
    rebase_named(
        ledger.as_str(),
        moment.as_str(),
        others,
        Left::Issuers(without),
    )
}

/// The chain begun anew, and the issuers that it leaves out, that words spell, if they spell both.
fn read_rebase_without(alloc: Global, words: &[String]) -> Result<Option<Rebase<'_>>, NoMemory>
    ensures { IfOk result (λ r. r ≡ rebase_without_of (map string_bytes words.now)) }
{
    if words.len() < 6 || words.len() > 5 + MAX_WITHOUT {
        return Ok(None);
    }
    let Some(without) = read_keys(alloc, &words[5..])? else {
        return Ok(None);
    };
    Ok(read_rebase(&words[..5], Listed::new(without)))
}

/// The chain of one place, begun anew, that words spell, if they spell one.
fn read_split(words: &[String]) -> Option<Rebase<'_>>
    ensures { result ≡ split_of (map string_bytes words.now) }
{
    let [ledger, moment, by, count, place, others @ ..] = words else {
        return None;
    };
    let by = by_word(by.as_str())?;
    let count = places_word(count.as_str())?;
    let place = place_word(place.as_str(), count)?;
    rebase_named(
        ledger.as_str(),
        moment.as_str(),
        others,
        Left::OtherPlaces { by, count, place },
    )
}

/// The beginning of a store that words spell, if they spell one.
fn read_start(words: &[String]) -> Option<Start<'_>>
    ensures { result ≡ start_of (map string_bytes words.now) }
{
    let [part, store] = words else {
        return None;
    };
    let part = read_name(part.as_str())?;
    let store = read_name(store.as_str())?;
    Some(Start { part, store })
}

/// The longer store that words spell, if they spell one.
fn read_install(words: &[String]) -> Option<Install<'_>>
    ensures { result ≡ install_of (map string_bytes words.now) }
{
    let [store, part, new_store] = words else {
        return None;
    };
    let (store, part) = read_two_names(store.as_str(), part.as_str())?;
    let new_store = read_name(new_store.as_str())?;
    Some(Install {
        store,
        part,
        new_store,
    })
}

/// The names that words spell, if they spell some and not too many.
fn read_listed<const MAX: usize>(
    alloc: Global,
    words: &[String],
) -> Result<Option<Listed<FileName<'_>, 1, MAX>>, NoMemory>
    ensures { IfOk result (λ o. o ≡ names_within MAX (map string_bytes words.now)) }
{
    if words.is_empty() || words.len() > MAX {
        return Ok(None);
    }
    let Some(names) = read_names(alloc, words)? else {
        return Ok(None);
    };
    Ok(Some(Listed::new(names)))
}

/// The rehearsal with these names of files that words spell, if they spell one.
fn rehearse_named<'a>(
    alloc: Global,
    queries: &'a str,
    workers: &str,
    jobs: &'a [String],
) -> Result<Option<Rehearse<'a>>, NoMemory>
    ensures { IfOk result (λ r. r ≡ rehearse_of (queries.now ∷ workers.now ∷ map string_bytes jobs.now)) }
{
    let Some(workers) = workers_word(workers) else {
        return Ok(None);
    };
    let Some(jobs) = read_listed(alloc, jobs)? else {
        return Ok(None);
    };
    let Some(queries) = read_name(queries) else {
        return Ok(None);
    };
    Ok(Some(Rehearse {
        queries,
        workers,
        jobs,
    }))
}

/// The rehearsal that words spell, if they spell one.
fn read_rehearse(alloc: Global, words: &[String]) -> Result<Option<Rehearse<'_>>, NoMemory>
    ensures { IfOk result (λ r. r ≡ rehearse_of (map string_bytes words.now)) }
{
    match words {
        [queries, workers, jobs @ ..] => rehearse_named(
            alloc,
            queries.as_str(),
            workers.as_str(),
            jobs,
        ),
        _ => Ok(None),
    }
}

/// The audit that words spell, if they spell one.
fn read_audit(alloc: Global, words: &[String]) -> Result<Option<Audit<'_>>, NoMemory>
    ensures { IfOk result (λ a. a ≡ audit_of (map string_bytes words.now)) }
{
    let [store, jobs @ ..] = words else {
        return Ok(None);
    };
    let Some(jobs) = read_listed(alloc, jobs)? else {
        return Ok(None);
    };
    let Some(store) = read_name(store.as_str()) else {
        return Ok(None);
    };
    Ok(Some(Audit { store, jobs }))
}

/// The job made from a number that words spell, if they spell one.
fn read_sample(words: &[String]) -> Option<Sample<'_>>
    ensures { result ≡ sample_of (map string_bytes words.now) }
{
    let [number, count, job] = words else {
        return None;
    };
    let number = number_word(number.as_str())?;
    let count = count_word(count.as_str())?;
    let job = read_name(job.as_str())?;
    Some(Sample { number, count, job })
}

/// The job with pages behind it that words spell, if they spell one.
fn read_gather(alloc: Global, words: &[String]) -> Result<Option<Gather<'_>>, NoMemory>
    ensures { IfOk result (λ g. g ≡ gather_of (map string_bytes words.now)) }
{
    let [head, log, job, pages @ ..] = words else {
        return Ok(None);
    };
    let Some((head, job)) = read_two_names(head.as_str(), job.as_str()) else {
        return Ok(None);
    };
    let Some(log) = key_word(log.as_str()) else {
        return Ok(None);
    };
    let Some(pages) = read_listed(alloc, pages)? else {
        return Ok(None);
    };
    Ok(Some(Gather {
        head,
        log,
        job,
        pages,
    }))
}

/// The job with pieces behind it that words spell, if they spell one.
fn read_merge(alloc: Global, words: &[String]) -> Result<Option<Merge<'_>>, NoMemory>
    ensures { IfOk result (λ m. m ≡ merge_of (map string_bytes words.now)) }
{
    let [head, job, pieces @ ..] = words else {
        return Ok(None);
    };
    let Some((head, job)) = read_two_names(head.as_str(), job.as_str()) else {
        return Ok(None);
    };
    let Some(pieces) = read_listed(alloc, pieces)? else {
        return Ok(None);
    };
    Ok(Some(Merge { head, job, pieces }))
}

/// The pieces of a job that words spell, if they spell them.
fn read_cut(alloc: Global, words: &[String]) -> Result<Option<Cut<'_>>, NoMemory>
    ensures { IfOk result (λ c. c ≡ cut_of (map string_bytes words.now)) }
{
    let [by, job, pieces @ ..] = words else {
        return Ok(None);
    };
    let Some(by) = by_word(by.as_str()) else {
        return Ok(None);
    };
    let Some(job) = read_name(job.as_str()) else {
        return Ok(None);
    };
    let Some(pieces) = read_listed(alloc, pieces)? else {
        return Ok(None);
    };
    Ok(Some(Cut { by, job, pieces }))
}

/// The place of a certificate that words ask for, if they do.
fn read_place(words: &[String]) -> Option<Place>
    ensures { result ≡ place_of (map string_bytes words.now) }
{
    let [by, issuer, serial, count] = words else {
        return None;
    };
    let by = by_word(by.as_str())?;
    let issuer = key_word(issuer.as_str())?;
    let serial = serial_word(serial.as_str())?;
    let count = places_word(count.as_str())?;
    let id = Identity { issuer, serial };
    Some(Place { by, id, count })
}

/// What a word of a command that writes files, and those behind it, ask for.
#[tactic(auto, using(crate::proofs::Commands::other))]
fn read_writing<'a>(
    alloc: Global,
    command: &str,
    rest: &'a [String],
) -> Result<Command<'a>, NoMemory>
    ensures value { IfOk result (λ c. c ≡ writes_of command.now (map string_bytes rest.now)) }
    ensures lent { (name : List ℕ) → writes_of command.now (map string_bytes rest.now) ≡ Command.Check name
        → IsOk result }
{
    match command {
        "snapshot" => Ok(read_snapshot(rest).map_or(Command::Usage, Command::Snapshot)),
        "delta" => Ok(read_delta(rest).map_or(Command::Usage, Command::Delta)),
        "rebase" => Ok(read_rebase(rest, Listed::new(Vec::new(alloc))).map_or(
            Command::Usage,
            Command::Rebase,
        )),
        "rebase-without" => Ok(read_rebase_without(alloc, rest)?.map_or(
            Command::Usage,
            Command::Rebase,
        )),
        "split" => Ok(read_split(rest).map_or(Command::Usage, Command::Rebase)),
        "start" => Ok(read_start(rest).map_or(Command::Usage, Command::Start)),
        "install" => Ok(read_install(rest).map_or(Command::Usage, Command::Install)),
        "sample" => Ok(read_sample(rest).map_or(Command::Usage, Command::Sample)),
        "gather" => Ok(read_gather(alloc, rest)?.map_or(Command::Usage, Command::Gather)),
        "merge" => Ok(read_merge(alloc, rest)?.map_or(Command::Usage, Command::Merge)),
        "cut" => Ok(read_cut(alloc, rest)?.map_or(Command::Usage, Command::Cut)),
        _ => Ok(Command::Usage),
    }
}

/// What a word and those behind it ask for, of files of any names.
#[tactic(auto, using(crate::proofs::Commands::other))]
fn read_command<'a>(
    alloc: Global,
    command: &str,
    rest: &'a [String],
) -> Result<Command<'a>, NoMemory>
    ensures value { IfOk result (λ c. c ≡ asked_of command.now (map string_bytes rest.now)) }
    ensures lent { (name : List ℕ) → asked_of command.now (map string_bytes rest.now) ≡ Command.Check name
        → IsOk result }
{
    match command {
        "query" => Ok(read_query(alloc, rest)?.map_or(Command::Usage, Command::Query)),
        "query-cert" => Ok(read_query_cert(rest).map_or(Command::Usage, Command::QueryCert)),
        "check" => Ok(read_name_alone(rest).map_or(Command::Usage, Command::Check)),
        "show" => Ok(read_name_alone(rest).map_or(Command::Usage, Command::Show)),
        "rehearse" => Ok(read_rehearse(alloc, rest)?.map_or(Command::Usage, Command::Rehearse)),
        "audit" => Ok(read_audit(alloc, rest)?.map_or(Command::Usage, Command::Audit)),
        "place" => match read_place(rest) {
            Some(place) => Ok(Command::Place(place)),
            None => Ok(Command::Usage),
        },
        _ => read_writing(alloc, command, rest),
    }
}

/// What words ask for. The words lend the names; room is taken for the sightings of a query, for the list of the jobs
/// of a rehearsal or of an audit, for that of pages that are gathered, of pieces that are merged or cut and of
/// issuers that are left out, and for nothing else.
pub fn read_words(alloc: Global, words: &[String]) -> Result<Command<'_>, NoMemory>
    ensures value { IfOk result (λ c. c ≡ command_of (map string_bytes words.now)) }
    // Words that ask for `check` are read without memory.
    ensures lent { (name : List ℕ) → command_of (map string_bytes words.now) ≡ Command.Check name → IsOk result }
{
    let [command, rest @ ..] = words else {
        return Ok(Command::Usage);
    };
    let command = read_command(alloc, command.as_str(), rest)?;
    if command.is_apart() {
        Ok(command)
    } else {
        Ok(Command::Usage)
    }
}
