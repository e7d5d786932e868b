ghost use Rattle.std.specs.Prelude.{◌≡◌, ◌≢◌, ℕ, ◌-◌, ◌/◌, ◌%◌, ◌^◌, ◌<◌, ◌≤◌, ◌↔◌, length, OnOk, OnErr, bit_and};
ghost use Rattle.std.specs.Int.{bit_at};
ghost use Rattle.ribbon_core.specs.Equations.{parity};
ghost use Rattle.ribbon_core.specs.Bands.{SolvesBands, AreBanded};

/// In some plane the kept equations and the new one have no common solution.
#[derive(Clone, Copy, Debug, PartialEq, Eq)]
pub struct Inconsistent;

// Reduces an equation by the kept ones whose lowest columns it meets, and keeps what is left at its lowest column. It
// may meet more than 128 of them, since each may reach further than what it reduces.
pub fn reduce(
    coeffs: &mut [u128],
    targets: &mut [u16],
    planes: u8,
    start: usize,
    mut coeff: u128,
    mut target: u16,
) -> Result<(), Inconsistent>
    requires bands { AreBanded coeffs.old targets.old planes }
    requires odd { coeff % 2 ≡ 1 }
    requires start { start ≤ length coeffs.old }
    requires within { coeff < 2 ^ (length coeffs.old - start) }
    requires few_planes { target < 2 ^ planes }
    ensures bands { AreBanded coeffs.new targets.new planes }
    ensures ok { OnOk result ((plane Z : ℕ) → SolvesBands plane coeffs.new targets.new Z
        ↔ (SolvesBands plane coeffs.old targets.old Z × (parity (bit_and coeff (Z / 2 ^ start)) ≡ bit_at target plane))) }
    ensures err { OnErr result ((plane : ℕ) × (plane < planes)
        × ((Z : ℕ) → SolvesBands plane coeffs.old targets.old Z
        → parity (bit_and coeff (Z / 2 ^ start)) ≡ bit_at target plane → ⊥)) }
    ensures coeffs_kept { OnErr result (coeffs.new ≡ coeffs.old) }
    ensures targets_kept { OnErr result (targets.new ≡ targets.old) }
{
    let mut at = start;
    loop {
        let pivot = coeffs[at];
        if pivot == 0 {
            coeffs[at] = coeff;
            targets[at] = target;
            return Ok(());
        }
        coeff ^= pivot;
        target ^= targets[at];
        if coeff == 0 {
            return if target == 0 {
                Ok(())
            } else {
                Err(Inconsistent)
            };
        }
        let (odd, skipped) = at_lowest(coeff);
        coeff = odd;
        at += skipped as usize;
    }
}

// The coefficient from its lowest one on, and how many zeros stand below that. It is mostly among the low 64 bits,
// which are looked at first.
fn at_lowest(coeff: u128) -> (u128, u32)
    requires { coeff ≢ 0 }
    ensures from_there { result.0 ≡ coeff / 2 ^ result.1 }
    ensures zeros { coeff % 2 ^ result.1 ≡ 0 }
    ensures odd { result.0 % 2 ≡ 1 }
{
    let low = (coeff & 0xffff_ffff_ffff_ffff) as u64;
    if low != 0 {
        let zeros = low.trailing_zeros();
        return (coeff >> zeros, zeros);
    }
    let zeros = coeff.trailing_zeros();
    (coeff >> zeros, zeros)
}
