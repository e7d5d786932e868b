//! What follows for every set, with no call.

ghost use Rattle.std.specs.Prelude.{◌≡◌, ◌↔◌, ℕ, List};
ghost use Rattle.ident_core.specs.declared.identity.Identity.{Identity};
ghost use Rattle.ident_core.specs.Order.{identity_cmp, octets_cmp};
ghost use Rattle.ident_core.specs.Among.{IsSetOf};
ghost use Rattle.ident_core.specs.Sets.{identity_set, key_set};

/// A list has one set: the ascending list, without repeats, of the same identities or keys.
pub fn sets_are_canonical()
    ensures identities { (xs s : List Identity) → IsSetOf identity_cmp xs s ↔ (s ≡ identity_set xs) }
    ensures keys { (xs s : List (List ℕ)) → IsSetOf octets_cmp xs s ↔ (s ≡ key_set xs) }
{}
