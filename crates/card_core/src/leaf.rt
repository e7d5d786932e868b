use crate::mixed::Mixed;
use equation_core::{EquationHash, RowKey};
use ident_core::Identity;
use octets_core::Steps;
use std::sync::ledger::Ledger;

/// The filter of a universe, or of one of its shards: what it says of their certificates.
#[derive(Drop)]
pub enum Leaf {
    /// None is revoked (mode 0).
    Clean,
    /// Each one is revoked (mode 1).
    Every,
    /// Some are revoked (mode 2).
    Mixed(Mixed),
}

impl Leaf {
    ghost use Rattle.std.specs.Prelude.{◌≡◌, ◌≤◌, ◌+◌, IfSome};
    ghost use Rattle.card_core.specs.Leaf.{is_leaf_positive};

    // The key of the row that is asked for first, if one is.
    pub(crate) fn first_key(&self) -> Option<RowKey>
        ensures { IfSome result (λ key. 1 ≤ key.starts) }
    {
        match self {
            Leaf::Clean | Leaf::Every => None,
            Leaf::Mixed(mixed) => Some(mixed.first_key()),
        }
    }

    /// Whether the leaf tests positive for a certificate of its universe. Each word that is read takes a step.
    pub fn tests_positive<H: EquationHash, M: Ledger>(
        &self,
        hash: &H,
        id: &Identity,
        words: &mut Steps<M>,
    ) -> bool
        ensures value { result ≡ is_leaf_positive (H.row_of hash.now) id.now self.now }
        ensures more { words.old ≤ words.new }
        ensures steps { words.new ≤ words.old + 51 }
    {
        match self {
            Leaf::Clean => false,
            Leaf::Every => true,
            Leaf::Mixed(mixed) => mixed.tests_positive(hash, id, words),
        }
    }
}
