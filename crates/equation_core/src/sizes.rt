ghost use Rattle.std.specs.Prelude.{◌≡◌, ◌≤◌};
ghost use Rattle.ident_core.specs.declared.bounds.TheConstants.{MAX_IDENTITIES};
ghost use Rattle.equation_core.specs.declared.sizes.TheConstants.{MAX_STARTS};
ghost use Rattle.equation_core.specs.Sizes.{starts_for as starts_of, words_for as words_of};

use ident_core::MAX_IDENTITIES;

/// The most starts of a system: those of as many keys as a chain may accept identities, 4,718,593.
pub const MAX_STARTS: u32 = (MAX_IDENTITIES + MAX_IDENTITIES / 8 + 1) as u32;

/// How many starts a system of so many keys has: an eighth more than keys, and one.
pub fn starts_for(keys: u32) -> u32
    requires { keys ≤ MAX_IDENTITIES }
    ensures value { result ≡ starts_of keys }
    ensures some { 1 ≤ result }
    ensures few { result ≤ MAX_STARTS }
{
    keys + keys / 8 + 1
}

/// How many words of 64 bits hold the columns of a plane. A coefficient of 128 bits may begin at each of the starts.
pub fn words_for(starts: u32) -> usize
    requires some { 1 ≤ starts }
    requires few { starts ≤ MAX_STARTS }
    ensures { result ≡ words_of starts }
{
    (starts as usize + 127).div_ceil(64)
}
