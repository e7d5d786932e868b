ghost use Rattle.std.specs.Prelude.{◌≡◌, ◌≤◌, length};
ghost use Rattle.std.specs.List.{count_by};

/// How many of the flags are set.
pub(crate) fn set_flags(flags: &[bool]) -> u32
    requires { length flags.now ≤ 4294967295 }
    ensures { result ≡ count_by (λ b. b) flags.now }
{
    let count = flags.iter().filter(|flag| **flag).count();
    count as u32
}
