use crate::leaf::Leaf;
use crate::mixed::Mixed;
use crate::sharded::Sharded;
use equation_core::{EquationHash, Known, RowKey};
use ident_core::Identity;
use octets_core::{Key32, Steps};
use std::sync::ledger::Ledger;

/// What a block says of its issuer's certificates.
#[derive(Drop)]
pub enum Body {
    /// None is revoked (mode 0).
    Clean,
    /// Each one is revoked (mode 1).
    Every,
    /// Some are revoked (mode 2).
    Mixed(Mixed),
    /// They are cut into shards (mode 3).
    Sharded(Sharded),
}

impl Body {
    ghost use Rattle.std.specs.Prelude.{◌≡◌, ◌≤◌, ◌+◌, IfSome};
    ghost use Rattle.card_core.specs.Filter.{is_positive};

    // The key of the row of the certificate that is asked for first, if one is.
    pub(crate) fn first_key(&self, known: &Known) -> Option<RowKey>
        ensures { IfSome result (λ key. 1 ≤ key.starts) }
    {
        match self {
            Body::Clean | Body::Every => None,
            Body::Mixed(mixed) => Some(mixed.first_key()),
            Body::Sharded(sharded) => sharded.leaf_of(known, known.id()).first_key(),
        }
    }

    /// Whether the block tests positive for a certificate of its issuer. Each word that is read takes a step.
    pub fn tests_positive<H: EquationHash, M: Ledger>(
        &self,
        hash: &H,
        id: &Identity,
        words: &mut Steps<M>,
    ) -> bool
        ensures value { result ≡ is_positive (H.row_of hash.now) id.now self.now }
        ensures more { words.old ≤ words.new }
        ensures steps { words.new ≤ words.old + 51 }
    {
        match self {
            Body::Clean => false,
            Body::Every => true,
            Body::Mixed(mixed) => mixed.tests_positive(hash, id, words),
            Body::Sharded(sharded) => sharded.tests_positive(hash, id, words),
        }
    }
}

impl From<Leaf> for Body {
    ghost use Rattle.std.specs.Prelude.{◌≡◌};
    ghost use Rattle.card_core.specs.Filter.{as_body};

    ghost from_gives = { λ leaf body. body ≡ as_body leaf };

    fn from(leaf: Leaf) -> Body {
        match leaf {
            Leaf::Clean => Body::Clean,
            Leaf::Every => Body::Every,
            Leaf::Mixed(mixed) => Body::Mixed(mixed),
        }
    }
}

/// What a part says of one issuer's certificates.
#[derive(Drop)]
pub struct Block {
    pub issuer: Key32,
    pub body: Body,
}
