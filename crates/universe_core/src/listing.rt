ghost use Rattle.std.specs.Prelude.{◌≡◌, ℕ, List, IfOk, All};
ghost use Rattle.ident_core.specs.Sets.{has_key};
ghost use Rattle.universe_core.specs.Marking.{IsListed, listed_in};

use crate::serial_key::{SerialKey, key_of, order_serials};
use ident_core::Serial;
use std::alloc::{AllocError, Global};

/// A serial that a CRL lists. It stays where the job has it.
#[derive(Clone, Copy)]
pub(crate) struct Listed<'a> {
    pub(crate) serial: &'a Serial,
    pub(crate) key: SerialKey,
}

/// These serials, sorted, so that searches one after the other look at places near each other.
pub(crate) fn sorted<'a>(
    alloc: Global,
    serials: &'a [Serial],
) -> Result<Vec<Listed<'a>>, AllocError>
    ensures same { IfOk result (λ out. (x : List ℕ) → has_key (listed_in out.items) x ≡ has_key serials.now x) }
    ensures keys { IfOk result (λ out. All IsListed out.items) }
{
    let mut out = Vec::with_capacity(alloc, serials.len())?;
    for serial in serials {
        out.push(Listed {
            serial,
            key: key_of(serial),
        })?;
    }
    out.sort_unstable_by(|x, y| order_serials(x.serial, x.key, y.serial, y.key));
    Ok(out)
}
