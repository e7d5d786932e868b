ghost use Rattle.std.specs.Prelude.{◌≡◌, ◌≤◌, OnOk, OnErr};
ghost use Rattle.outside_core.specs.Calls.{no_calls, is_failing, with_failing, one_made, one_failed};

use crate::depot::Failed;
use octets_core::NoMemory;
use std::alloc::Global;
use std::marker::Model;

/// The calls of one kind: how many were made, the numbers of those that fail, and how many failed.
#[derive(Drop)]
pub struct Calls {
    alloc: Global,
    made: u64,
    failing: Vec<u64>,
    faults: u64,
}

impl Model for Calls {
    ghost use Rattle.outside_core.specs.Calls.{CallsView, calls_code};

    ghost Value = { CallsView };

    ghost coded = { calls_code };

    ghost view = { λ c. record { made = c.made; failing = c.failing.items; faults = c.faults } };
}

impl Calls {
    pub fn new(alloc: Global) -> Calls
        ensures { result ≡ no_calls }
    {
        Calls {
            alloc,
            made: 0,
            failing: Vec::new(alloc),
            faults: 0,
        }
    }

    /// The calls with these numbers fail, in place of those of the earlier list.
    pub fn fail(&mut self, calls: &[u64]) -> Result<(), NoMemory>
        ensures ok { OnOk result (self.new ≡ with_failing self.old calls.now) }
        ensures err { OnErr result (self.new ≡ self.old) }
    {
        self.failing = calls.to_vec(self.alloc)?;
        Ok(())
    }

    /// Makes one call, and says whether it is one that fails.
    pub fn next_fails(&mut self) -> bool
        ensures fails { result ≡ is_failing self.old }
        ensures made { self.new ≡ one_made self.old }
    {
        let fails = self.failing.contains(&self.made);
        self.made = self.made.saturating_add(1);
        fails
    }

    /// Counts a fault.
    pub fn fault(&mut self) -> Failed
        ensures counted { self.new ≡ one_failed self.old }
        ensures later { self.old.faults ≤ self.new.faults }
    {
        self.faults = self.faults.saturating_add(1);
        Failed
    }
}
