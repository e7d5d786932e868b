ghost use Rattle.std.specs.Prelude.{◌≡◌, ◌<◌, ◌≤◌, ◌^◌, ℕ, [], ◌∷◌};
ghost use Rattle.ident_core.specs.declared.identity.Identity.{Identity};
ghost use Rattle.equation_core.specs.declared.hash.Row.{Row};
ghost use Rattle.equation_core.specs.declared.shards.TheConstants.{MAX_SHIFT};
ghost use Rattle.equation_core.specs.Rows.{IsRow};
ghost use Rattle.equation_core.specs.Shards.{shard as shard_at};

use crate::shards::{MAX_SHIFT, shard_of};
use ident_core::Identity;

/// The most planes of a filter's stage: a tag has a bit for each.
pub const MAX_PLANES: u8 = 16;

/// What an identity gives to a ribbon filter (Dillinger and Walzer, "Ribbon filter: practically smaller than Bloom
/// and Xor", 2021): the columns that its equation adds up, and what the sum is to be in each plane.
#[derive(Clone, Copy, Debug, PartialEq, Eq)]
pub struct Row {
    /// The first column that the equation may choose, which it does choose.
    pub start: u32,
    /// Bit `j` says whether column `start + j` is chosen.
    pub coeff: u128,
    /// Bit `p` is the identity's tag in plane `p`.
    pub tag: u16,
}

/// Which row of an identity is meant.
#[derive(Clone, Copy, Debug, PartialEq, Eq)]
pub struct RowKey {
    pub stage: u8,
    pub seed: u8,
    pub starts: u32,
}

/// A way to give each identity a row, for each stage and seed of a filter and each count of starts.
pub trait EquationHash {
    /// The row is a function of the hash's value and the four arguments.
    ghost row_of: { Self → ℕ → ℕ → Identity → ℕ → Row };

    /// The identity's row, for a stage and a seed of a filter of so many starts.
    fn row(&self, stage: u8, seed: u8, id: &Identity, starts: u32) -> Row
        requires { 1 ≤ starts }
        ensures value { result ≡ row_of self.now stage seed id.now starts }
        ensures formed { IsRow starts result };

    /// The rows of four identities, which a hash may draw side by side.
    fn four_rows(
        &self,
        stage: u8,
        seed: u8,
        a: &Identity,
        b: &Identity,
        c: &Identity,
        d: &Identity,
        starts: u32,
    ) -> [Row; 4]
        requires { 1 ≤ starts }
        ensures { result
            ≡ row_of self.now stage seed a.now starts ∷ row_of self.now stage seed b.now starts
            ∷ row_of self.now stage seed c.now starts ∷ row_of self.now stage seed d.now starts ∷ [] }
    {
        [
            self.row(stage, seed, a, starts),
            self.row(stage, seed, b, starts),
            self.row(stage, seed, c, starts),
            self.row(stage, seed, d, starts),
        ]
    }

    /// The shard of an identity among `2^shift`, which a hash may know beforehand.
    fn shard(&self, id: &Identity, shift: u8) -> u8
        requires { shift ≤ MAX_SHIFT }
        ensures value { result ≡ shard_at id.now shift }
        ensures below { result < 2 ^ shift }
    {
        shard_of(id, shift)
    }

    /// Each row begins at one of the starts with an odd coefficient, and fits its fields.
    ghost formed: { (hash : Self) (stage seed : ℕ) (id : Identity) (starts : ℕ)
        → stage < 2 ^ 8 → seed < 2 ^ 8 → 1 ≤ starts → starts < 2 ^ 32
        → IsRow starts (row_of hash stage seed id starts) };
}
