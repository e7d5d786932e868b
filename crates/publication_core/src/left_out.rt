use ident_core::{Identity, holds_key, sort_keys_once};
use octets_core::Key32;
use place_core::{By, PlaceCount, place_of, place_of_issuer};
use std::alloc::{AllocError, Global};
use std::marker::Model;

/// A set of issuers.
#[derive(Drop)]
pub struct Issuers {
    keys: Vec<Key32>,
}

impl Model for Issuers {
    ghost use Rattle.std.specs.Prelude.{List, ℕ};
    ghost use Rattle.std.specs.List.Sorted.{IsStrictlySortedBy};
    ghost use Rattle.ident_core.specs.Order.{octets_cmp};

    ghost Value = { List (List ℕ) };

    ghost view = { λ l. l.keys.items };

    ghost invariant = { λ l. IsStrictlySortedBy octets_cmp l.keys.items };
}

impl Issuers {
    ghost use Rattle.std.specs.Prelude.{◌≡◌, IfOk};
    ghost use Rattle.ident_core.specs.Sets.{has_key, key_set};

    /// The set of these. They stand in any order, perhaps more than once.
    pub fn new(alloc: Global, issuers: &[Key32]) -> Result<Issuers, AllocError>
        ensures { IfOk result (λ l. l ≡ key_set issuers.now) }
    {
        let mut keys = Vec::with_capacity(alloc, issuers.len())?;
        keys.extend_from_slice(issuers)?;
        sort_keys_once(&mut keys);
        Ok(Issuers { keys })
    }

    /// Whether the issuer is one of them.
    fn has(&self, issuer: &Key32) -> bool
        ensures { result ≡ has_key self.now issuer.now }
    {
        holds_key(&self.keys, issuer)
    }
}

/// What a rebase leaves out of a ledger.
#[derive(Drop)]
pub enum LeftOut {
    /// These issuers and their identities. Some are perhaps in no part.
    Issuers(Issuers),
    /// What other places have than this one, by issuer or by identity, among so many.
    OtherPlaces {
        by: By,
        count: PlaceCount,
        place: u32,
    },
}

impl LeftOut {
    ghost use Rattle.std.specs.Prelude.{◌≡◌};
    ghost use Rattle.place_core.specs.Cuts.{is_kept};
    ghost use Rattle.publication_core.specs.LeftOut.{cut_of};

    /// Whether the issuer stays.
    pub(crate) fn takes(&self, issuer: &Key32) -> bool
        ensures { result ≡ (cut_of self.now).takes issuer.now }
    {
        match self {
            LeftOut::Issuers(issuers) => !issuers.has(issuer),
            LeftOut::OtherPlaces { by, count, place } => match by {
                By::Issuer => place_of_issuer(issuer, *count) == *place,
                By::Identity => true,
            },
        }
    }

    /// Whether the identity of an issuer that stays does.
    fn chooses(&self, id: &Identity) -> bool
        ensures { result ≡ (cut_of self.now).chooses id.now }
    {
        match self {
            LeftOut::Issuers(_) => true,
            LeftOut::OtherPlaces { by, count, place } => match by {
                By::Issuer => true,
                By::Identity => place_of(id, *count) == *place,
            },
        }
    }

    /// Whether the identity stays.
    pub(crate) fn keeps(&self, id: &Identity) -> bool
        ensures { result ≡ is_kept (cut_of self.now) id.now }
    {
        self.takes(&id.issuer) && self.chooses(id)
    }
}
