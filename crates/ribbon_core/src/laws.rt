//! Laws of the definitions, apart from all code. Each is a function that does nothing, and its clauses say the law.

ghost use Rattle.std.specs.Prelude.{◌≡◌, ℕ, ◌+◌, ◌*◌, ◌%◌, ◌^◌, ◌<◌, ◌≢◌, ◌↔◌, List, [], ◌∷◌, ◌++◌, IsPermutation};
ghost use Rattle.std.specs.Int.{bit_at};
ghost use Rattle.std.specs.List.{sum_by, range_with_len};
ghost use Rattle.ribbon_core.specs.Equations.{Equation, AreAdded, IsBelow, IsContradicted, IsSolvable, Least, SolvesAll, sum_of};

/// An equation's sum is the textbook's: column by column, the coefficient's bit times the column, added up modulo 2.
pub fn sum_is_over_columns()
    ensures { (width : ℕ) (e : Equation) (Z : ℕ) → e.coeff < 2 ^ width
        → sum_of e Z ≡ sum_by (λ j. bit_at e.coeff j * bit_at Z (e.start + j)) (range_with_len 0 width) % 2 }
{}

/// Of two vectors, the one below has a zero at the highest column where they differ. As a number it is the lesser one.
pub fn below_at_the_highest()
    ensures highest { (Z Y c : ℕ) → bit_at Z c ≢ bit_at Y c → ((d : ℕ) → c < d → bit_at Z d ≡ bit_at Y d) → IsBelow Z Y ↔ (bit_at Z c ≡ 0) }
    ensures lesser { (Z Y : ℕ) → IsBelow Z Y ↔ (Z < Y) }
{}

/// The equations of a plane have one least solution at most.
pub fn least_is_unique()
    ensures { (plane : ℕ) (es : List Equation) (Y Z : ℕ) → Least plane es Y → Least plane es Z → Y ≡ Z }
{}

/// After any list of adds that were not refused, in any order, the kept equations have the solutions of all equations
/// added, and so the same least one; and a refusal comes exactly where in some plane these and the new one have none.
pub fn kept_are_the_added()
    ensures solutions { (es kept : List Equation) → AreAdded [] es kept → (plane Z : ℕ) → SolvesAll plane kept Z ↔ SolvesAll plane es Z }
    ensures least { (es fs kept : List Equation) → AreAdded [] es kept → IsPermutation es fs → (plane Z : ℕ)
        → Least plane kept Z ↔ Least plane fs Z }
    ensures refused { (planes : ℕ) (es kept : List Equation) (e : Equation) → AreAdded [] es kept
        → IsContradicted planes kept e ↔ ((plane : ℕ) × (plane < planes) × (IsSolvable plane (es ++ e ∷ []) → ⊥)) }
{}
