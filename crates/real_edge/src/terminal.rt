ghost use Rattle.std.specs.Prelude.{◌≡◌};

use outside_core::{Failed, Sink};
use std::io;
use std::io::Write;

/// Standard output.
#[derive(Drop)]
pub struct Terminal<'a, R> {
    rt: &'a R,
    faults: u64,
}

impl<'a, R: Print> Terminal<'a, R> {
    /// No error has been counted.
    pub fn new(rt: &'a R) -> Terminal<'a, R>
        ensures { result.faults ≡ 0 }
    {
        Terminal { rt, faults: 0 }
    }
}

impl<'a, R: Print> Sink for Terminal<'a, R> {
    ghost use Rattle.std.specs.Prelude.{None};

    ghost written = { λ _. None };

    ghost faults = { λ t. t.faults };

    fn write(&mut self, bytes: &[u8]) -> Result<usize, Failed> {
        if bytes.is_empty() {
            return Ok(0);
        }
        match io::writer(self.rt).write(bytes) {
            Ok(n) if n > 0 => Ok(n),
            _ => {
                self.faults = self.faults.saturating_add(1);
                Err(Failed)
            }
        }
    }
}
