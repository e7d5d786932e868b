ghost use Rattle.std.specs.Prelude.{◌≡◌, ◌≤◌, ◌+◌, slice_index_or};
ghost use Rattle.equation_core.specs.Shards.{shard};
ghost use Rattle.card_core.specs.declared.leaf.Leaf.TheVariants.{Clean};
ghost use Rattle.card_core.specs.ShardedFields.{IsSharded};
ghost use Rattle.card_core.specs.Filter.{cut, is_filtered};

use crate::leaf::Leaf;
use equation_core::EquationHash;
use ident_core::Identity;
use octets_core::Steps;
use std::marker::Model;
use std::sync::ledger::Ledger;

/// The filter of a universe that is cut into shards, with a leaf for each (mode 3).
#[derive(Drop)]
pub struct Sharded {
    shift: u8,
    leaves: Vec<Leaf>,
}

impl Model for Sharded {
    ghost use Rattle.card_core.specs.ShardedFields.{ShardedFields, IsSharded};

    ghost Value = { ShardedFields };

    ghost view = { λ s. record { shift = s.shift; leaves = s.leaves.items } };

    ghost invariant = { λ s. IsSharded (record { shift = s.shift; leaves = s.leaves.items }) };
}

impl Sharded {
    /// The filter of these leaves, one for each of the `2^shift` shards.
    pub fn new(shift: u8, leaves: Vec<Leaf>) -> Sharded
        requires { IsSharded (record { shift = shift; leaves = leaves.items }) }
        ensures { result ≡ record { shift = shift; leaves = leaves.items } }
    {
        Sharded { shift, leaves }
    }

    /// How many bits tell a shard, 1 to 8.
    pub fn shift(&self) -> u8
        ensures value { result ≡ self.now.shift }
        ensures facts { IsSharded self.now }
    {
        self.shift
    }

    /// The leaves, in the order of their shards.
    pub fn leaves(&self) -> &[Leaf]
        ensures value { result.now ≡ self.now.leaves }
        ensures facts { IsSharded self.now }
    {
        self.leaves.as_slice()
    }

    // The leaf of the identity's shard.
    pub(crate) fn leaf_of<H: EquationHash>(&self, hash: &H, id: &Identity) -> &Leaf
        ensures { result.now ≡ slice_index_or self.now.leaves (shard id.now self.now.shift) Clean }
    {
        let place = hash.shard(id, self.shift) as usize;
        &self.leaves[place]
    }

    /// Whether the leaf of the identity's shard tests positive. Each word that is read takes a step.
    pub fn tests_positive<H: EquationHash, M: Ledger>(
        &self,
        hash: &H,
        id: &Identity,
        words: &mut Steps<M>,
    ) -> bool
        ensures value { result ≡ is_filtered (H.row_of hash.now) id.now (cut self.now.shift self.now.leaves) }
        ensures more { words.old ≤ words.new }
        ensures steps { words.new ≤ words.old + 51 }
    {
        self.leaf_of(hash, id).tests_positive(hash, id, words)
    }
}
