ghost use Rattle.std.specs.Prelude.{◌≡◌, ◌++◌, IfOk, OnOk, map, filter, flat_map};
ghost use Rattle.ledger_core.specs.LedgerFields.{part_fields};
ghost use Rattle.ident_core.specs.Sets.{key_set};
ghost use Rattle.publication_core.specs.LeftOut.{cut_of};

use crate::left_out::LeftOut;
use ident_core::sort_keys_once;
use ledger_core::LedgerPart;
use octets_core::Key32;
use std::alloc::{AllocError, Global};

/// How many keys hold the issuers of each part.
fn room(parts: &[LedgerPart]) -> usize {
    let mut count: usize = 0;
    for part in parts {
        count = count.saturating_add(part.issuers.len());
    }
    count
}

/// Puts behind the keys those issuers that aren't left out.
fn put_others(
    keys: &mut Vec<Key32>,
    issuers: &[Key32],
    left_out: &LeftOut,
) -> Result<(), AllocError>
    ensures { OnOk result (keys.new.items ≡ keys.old.items ++ filter (cut_of left_out.now).takes issuers.now) }
{
    for issuer in issuers {
        if left_out.takes(issuer) {
            keys.push(*issuer)?;
        }
    }
    Ok(())
}

/// The issuers of all parts that aren't left out, one part after the other.
fn each_issuer(
    alloc: Global,
    parts: &[LedgerPart],
    left_out: &LeftOut,
) -> Result<Vec<Key32>, AllocError>
    ensures { IfOk result (λ keys. keys.items
        ≡ flat_map (λ p. filter (cut_of left_out.now).takes p.issuers) (map part_fields parts.now)) }
{
    let mut keys = Vec::with_capacity(alloc, room(parts))?;
    for part in parts {
        put_others(&mut keys, &part.issuers, left_out)?;
    }
    Ok(keys)
}

/// The issuers of all parts that aren't left out, ascending, each once.
pub(crate) fn all_issuers(
    alloc: Global,
    parts: &[LedgerPart],
    left_out: &LeftOut,
) -> Result<Vec<Key32>, AllocError>
    ensures { IfOk result (λ keys. keys.items
        ≡ key_set (flat_map (λ p. filter (cut_of left_out.now).takes p.issuers) (map part_fields parts.now))) }
{
    let mut keys = each_issuer(alloc, parts, left_out)?;
    sort_keys_once(&mut keys);
    Ok(keys)
}
