//! A law of the definitions, apart from all code: a solution is there, or there is none.

ghost use Rattle.std.specs.Prelude.{◌⊎◌, ℕ, List};
ghost use Rattle.ribbon_core.specs.Equations.{Equation, IsSolvable, Least};

/// Equations of a plane that have a solution have a least one; and either they have one, or nothing solves them. So a
/// definition that asks for the least solution has a value, or there is none to be had.
pub fn a_least_or_none()
    ensures { (plane : ℕ) (es : List Equation) → ((Z : ℕ) × Least plane es Z) ⊎ (IsSolvable plane es → ⊥) }
{}
