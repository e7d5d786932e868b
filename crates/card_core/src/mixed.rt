ghost use Rattle.std.specs.Prelude.{◌≡◌, ◌≤◌, ◌+◌, length, MatchOption};
ghost use Rattle.card_core.specs.declared.leaf.Leaf.TheVariants.{Mixed as MixedLeaf};
ghost use Rattle.card_core.specs.Leaf.{is_leaf_positive, passes as is_passed};

use crate::stage::{Stage, accepts, exact_sum_of, key_of};
use equation_core::{EquationHash, RowKey};
use ident_core::Identity;
use octets_core::Steps;
use std::marker::Model;
use std::sync::ledger::Ledger;

/// The filter of an issuer of whose certificates some are revoked and some are not (mode 2). The approximate stage, if
/// there is one, accepts the revoked and some of the others, and the exact stage, of one plane, tells these apart.
#[derive(Drop)]
pub struct Mixed {
    approx: Option<Stage>,
    exact: Stage,
}

impl Model for Mixed {
    ghost use Rattle.std.specs.Prelude.{◌≡◌, length};
    ghost use Rattle.card_core.specs.MixedFields.{MixedFields};

    ghost Value = { MixedFields };

    ghost view = { λ m. record { approx = m.approx; exact = m.exact } };

    ghost invariant = { λ m. length m.exact.planes.columns ≡ 1 };
}

impl Mixed {
    /// The filter of these stages.
    pub fn new(approx: Option<Stage>, exact: Stage) -> Mixed
        requires { length exact.planes.columns ≡ 1 }
        ensures { result ≡ record { approx = approx; exact = exact } }
    {
        Mixed { approx, exact }
    }

    /// The approximate stage, if there is one.
    pub fn approx(&self) -> Option<&Stage>
        ensures { MatchOption result (self.now.approx ≡ None) (λ s. self.now.approx ≡ Some s.now) }
    {
        self.approx.as_ref()
    }

    /// The exact stage.
    pub fn exact(&self) -> &Stage
        ensures value { result.now ≡ self.now.exact }
        ensures one { length self.now.exact.planes.columns ≡ 1 }
    {
        &self.exact
    }

    // The key of the row that is asked for first.
    pub(crate) fn first_key(&self) -> RowKey
        ensures { 1 ≤ result.starts }
    {
        match &self.approx {
            None => key_of(2, &self.exact),
            Some(stage) => key_of(1, stage),
        }
    }

    // Whether the approximate stage, if there is one, accepts the identity.
    fn passes<H: EquationHash, M: Ledger>(
        &self,
        hash: &H,
        id: &Identity,
        words: &mut Steps<M>,
    ) -> bool
        ensures value { result ≡ is_passed (H.row_of hash.now) self.now.approx id.now }
        ensures more { words.old ≤ words.new }
        ensures steps { words.new ≤ words.old + 48 }
    {
        match &self.approx {
            None => true,
            Some(stage) => accepts(stage, hash, id, words),
        }
    }

    // Whether the identity tests positive.
    pub(crate) fn tests_positive<H: EquationHash, M: Ledger>(
        &self,
        hash: &H,
        id: &Identity,
        words: &mut Steps<M>,
    ) -> bool
        ensures value { result ≡ is_leaf_positive (H.row_of hash.now) id.now (MixedLeaf self.now) }
        ensures more { words.old ≤ words.new }
        ensures steps { words.new ≤ words.old + 51 }
    {
        self.passes(hash, id, words) && exact_sum_of(&self.exact, hash, id, words) == 1
    }
}
