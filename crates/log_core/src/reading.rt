ghost use Rattle.std.specs.Prelude.{◌≡◌, ◌<◌, ◌≤◌, MatchOption, IfOk, length, List, ℕ, Option, Some, None};
ghost use Rattle.std.specs.Option.{option_map};
ghost use Rattle.octets_core.specs.Walk.{value_of, ends, all_of};
ghost use Rattle.octets_core.specs.Vectors.{some_vector};
ghost use Rattle.log_core.specs.Certificates.{tbs_serial, certificate_serial, tbs_until, certificate_until};
ghost use Rattle.log_core.specs.EntryGrammar.{ReadsEntry, GivesAtMostOne};
ghost use Rattle.log_core.specs.declared.Entry.{Entry as EntryRead};
ghost use Rattle.log_core.specs.Entries.{leaf, if_zero, issuer_of, key, first_in, chain, chain_hash, identified};
ghost use Rattle.log_core.specs.Entries.{identity_by, sighted, entry_of, is_cut};
ghost use Rattle.log_core.specs.Leaves.{leaf_of, GivesEntry};

use crate::certificate::{Tbs, certificate_tbs_of, issuer_hash, tbs_of};
use crate::leaf::Leaf;
use crate::{Entry, Unread};
use ident_core::{Identity, Sighting};
use octets_core::vectors::{split_bytes, split_number, split_some_vector, split_vector};
use octets_core::{Key32, key_of};

#[tactic(auto, unfolding(crate::specs::Entries::key))]
fn split_key(bytes: &[u8]) -> Option<(Option<Key32>, &[u8])>
    ensures { option_map {U = Option (List ℕ) × List ℕ} (λ x. (x.0, x.1.now)) result ≡ key bytes.now }
{
    let (hash, rest) = split_bytes(bytes, 32)?;
    Some((Some(key_of(hash)), rest))
}

/// The key hash of the issuer, which only a precertificate's entry has.
fn split_issuer(bytes: &[u8], entry: u64) -> Option<(Option<Key32>, &[u8])>
    ensures { option_map {U = Option (List ℕ) × List ℕ} (λ x. (x.0, x.1.now)) result ≡ issuer_of entry bytes.now }
{
    match entry {
        0 => Some((None, bytes)),
        1 => split_key(bytes),
        _ => None,
    }
}

#[tactic(auto, unfolding(octets_core::specs::Walk::ends))]
fn nothing_left(bytes: &[u8]) -> Option<()>
    ensures { MatchOption result (ends bytes.now ≡ None) (λ x. ends bytes.now ≡ Some (x, bytes.now)) }
{
    match bytes {
        [] => Some(()),
        _ => None,
    }
}

/// The fields of a leaf.
#[tactic(auto, unfolding(crate::specs::Entries::leaf))]
fn read_leaf(bytes: &[u8]) -> Option<Leaf<'_>>
    ensures { option_map leaf_of result ≡ value_of (leaf bytes.now) }
{
    let (version, rest) = split_number(bytes, 1)?;
    let (kind, rest) = split_number(rest, 1)?;
    if version != 0 || kind != 0 {
        return None;
    }
    let (time, rest) = split_number(rest, 8)?;
    let (entry, rest) = split_number(rest, 2)?;
    let Some((issuer, rest)) = split_issuer(rest, entry) else {
        return None;
    };
    let (signed, rest) = split_some_vector(rest, 3)?;
    let (_, rest) = split_vector(rest, 2)?;
    nothing_left(rest)?;
    Some(Leaf {
        time,
        issuer,
        signed,
    })
}

/// Whether vectors fill the bytes, each of one byte or more.
fn are_vectors(bytes: &[u8]) -> bool
    ensures { result ≡ is_cut (all_of (some_vector 3) bytes.now) }
{
    let mut rest = bytes;
    while rest.len() > 0 {
        let Some((_, after)) = split_some_vector(rest, 3) else {
            return false;
        };
        rest = after;
    }
    true
}

/// The first of the vectors that fill the bytes.
fn first_of(list: &[u8]) -> Option<&[u8]>
    ensures { option_map (λ x. x.now) result ≡ first_in (all_of (some_vector 3) list.now) }
{
    let Some((first, rest)) = split_some_vector(list, 3) else {
        return None;
    };
    if are_vectors(rest) { Some(first) } else { None }
}

/// The first certificate of a chain.
#[tactic(auto, unfolding(crate::specs::Entries::chain))]
fn first_in_chain(extra: &[u8]) -> Option<&[u8]>
    ensures { option_map (λ x. x.now) result ≡ value_of (chain extra.now) }
{
    let (list, rest) = split_vector(extra, 3)?;
    nothing_left(rest)?;
    first_of(list)
}

/// The issuer hash of the first certificate of a chain.
fn chain_hash_of(extra: &[u8]) -> Option<Key32>
    ensures { result ≡ chain_hash extra.now }
{
    issuer_hash(first_in_chain(extra)?).ok()
}

fn precertificate_of(issuer: Key32, sighting: Sighting, tbs: &[u8]) -> Option<Entry>
    ensures { result ≡ sighted sighting.log sighting.time (tbs_until tbs.now) (identified (Some issuer) (tbs_serial tbs.now)) }
{
    let Tbs { serial, until } = tbs_of(tbs)?;
    Some(Entry {
        id: Identity { issuer, serial },
        sighting,
        until,
    })
}

fn certificate_of(sighting: Sighting, cert: &[u8], extra: &[u8]) -> Option<Entry>
    ensures { result ≡ sighted sighting.log sighting.time (certificate_until cert.now)
        (identified (chain_hash extra.now) (certificate_serial cert.now)) }
{
    let Tbs { serial, until } = certificate_tbs_of(cert)?;
    let issuer = chain_hash_of(extra)?;
    Some(Entry {
        id: Identity { issuer, serial },
        sighting,
        until,
    })
}

fn entry_in(log: Key32, leaf: &[u8], extra: &[u8]) -> Result<Entry, Unread>
    ensures { GivesEntry (entry_of log leaf.now extra.now) result }
{
    let Some(fields) = read_leaf(leaf) else {
        return Err(Unread);
    };
    let sighting = Sighting {
        log,
        time: fields.time,
    };
    let found = match fields.issuer {
        Some(key) => precertificate_of(key, sighting, fields.signed),
        None => certificate_of(sighting, fields.signed, extra),
    };
    found.ok_or(Unread)
}

/// The identity, the sighting and the date that an entry of this log gives: a leaf, and its extra data (RFC 6962,
/// 4.6). The extra data of a precertificate isn't read. An entry whose certificate tells no notAfter is read too.
pub fn read_entry(log: Key32, leaf: &[u8], extra: &[u8]) -> Result<Entry, Unread>
    // What is given is what the entry says, what an entry says is given, and no entry says two things.
    ensures found { IfOk result (λ x. ReadsEntry log leaf.now extra.now x) }
    ensures only { (x : EntryRead) → ReadsEntry log leaf.now extra.now x → GivesEntry (Some x) result }
    ensures once { GivesAtMostOne log leaf.now extra.now }
    ensures exact { GivesEntry (entry_of log leaf.now extra.now) result }
{
    entry_in(log, leaf, extra)
}
