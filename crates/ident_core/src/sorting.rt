ghost use Rattle.std.specs.Prelude.{◌≡◌};
ghost use Rattle.ident_core.specs.Among.{IsSetOf};
ghost use Rattle.ident_core.specs.Sets.{key_set, identity_set};

use crate::identity::Identity;
use octets_core::Key32;
use std::cmp::Ordering;

/// Sorts the items and leaves each once: what remains is their set.
pub fn sort_once<T: Ord + Drop>(items: &mut Vec<T>)
    requires exact { (x y : T) → T.cmp x y ≡ Ordering.Equal → x ≡ y }
    ensures { IsSetOf T.cmp items.old.items items.new.items }
{
    items.sort_unstable();
    items.dedup();
}

/// Sorts keys by their bytes and leaves each once.
pub fn sort_keys_once(keys: &mut Vec<Key32>)
    ensures { keys.new.items ≡ key_set keys.old.items }
{
    sort_once(keys);
}

/// Sorts identities by issuer, then serial length, then serial octets, and leaves each once.
pub fn sort_identities_once(ids: &mut Vec<Identity>)
    ensures { ids.new.items ≡ identity_set ids.old.items }
{
    sort_once(ids);
}
