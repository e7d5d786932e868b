ghost use Rattle.std.specs.Prelude.{◌≡◌, ◌≤◌, ◌<◌, ◌+◌, ◌-◌, ◌^◌, ◌⊎◌, ◌↔◌, ℕ, List, [], Some, length, drop, IsOk, IfOk};
ghost use Rattle.std.specs.Prelude.{OnOk, OnErr};
ghost use Rattle.outside_core.specs.Reads.{ReadFailed};
ghost use Rattle.outside_core.specs.Effects.{OnlyReads};
ghost use Rattle.outside_core.specs.Feeding.{most_at_once};

use crate::depot::{Depot, Failed};
use crate::window::Window;

/// A file that is read in order, through a buffer of 4,096 bytes. A new feed stands at 0.
#[derive(Drop)]
pub struct Feed<'a, D> {
    depot: &'a mut D,
    name: &'a str,
    window: Window,
    at: u64,
    ghost reach: { at + length window < 2 ^ 64 },
}

impl<'a, D: Depot> Feed<'a, D> {
    ghost use Rattle.std.specs.Borrow.{sem};
    ghost use mir.Syntax.{named};
    ghost use Rattle.std.specs.Io.BufRead.{Rests};
    ghost use Rattle.outside_core.specs.contracts.feed.Feed.{the_row as feed_row};
    ghost use Rattle.outside_core.specs.Filling.{IsInOrder, OffersNext, Filled};
    ghost use Rattle.outside_core.specs.Standing.{reference_of, depot_of, name_of, place_of, buffered_of};
    ghost use Rattle.outside_core.specs.Standing.{file_in, StandsIn};

    /// A feed that stands at the file's first byte. Nothing is read yet.
    pub fn new(depot: &'a mut D, name: &'a str) -> Feed<'a, D>
        ensures same_reference { reference_of result ≡ depot.entry.ghost_name }
        ensures depot { depot_of result ≡ depot.old }
        ensures name { name_of result ≡ name.now }
        ensures at { place_of result ≡ 0 }
        ensures window { buffered_of result ≡ [] }
        ensures in_order { IsInOrder D.Depot result }
        ensures stands { (file : List ℕ) → file_in (D.files depot.old) name.now ≡ Some file → StandsIn D.Depot result file }
    {
        Feed {
            depot,
            name,
            window: Window::new(),
            at: 0,
        }
    }

    /// Reads the next piece where no bytes are buffered. After `Failed` the feed is as it was.
    pub fn refill(&mut self) -> Result<(), Failed>
        ensures same_reference { reference_of self.new ≡ reference_of self.old }
        ensures name { name_of self.new ≡ name_of self.old }
        ensures at { place_of self.new ≡ place_of self.old }
        ensures in_order { IsInOrder D.Depot self.old → IsInOrder D.Depot self.new }
        ensures ok { OnOk result (IsInOrder D.Depot self.old → OffersNext D.Depot self.old (buffered_of self.new)) }
        ensures stands { (file : List ℕ) → StandsIn D.Depot self.old file → StandsIn D.Depot self.new file }
        ensures ends { OnOk result ((file : List ℕ) → StandsIn D.Depot self.old file
            → buffered_of self.new ≡ [] ↔ length file ≤ place_of self.old) }
        ensures err { OnErr result (buffered_of self.new ≡ buffered_of self.old) }
        ensures kept { (0 < length (buffered_of self.old)) ⊎ (place_of self.old ≡ 2 ^ 64 - 1)
            → IsOk result × (buffered_of self.new ≡ buffered_of self.old) × (depot_of self.new ≡ depot_of self.old) }
        ensures cause { OnErr result (ReadFailed D.Depot (name_of self.old) (depot_of self.old) (depot_of self.new)) }
        ensures unblamed { OnOk result (D.failed_reads (depot_of self.new) ≡ D.failed_reads (depot_of self.old)) }
        ensures only_reads { OnlyReads D.Depot (depot_of self.old) (depot_of self.new) }
    {
        self.window.fill_from(self.depot, self.name, self.at)
    }

    /// The bytes that are buffered and aren't taken.
    pub fn buffered(&self) -> &[u8]
        ensures value { result.now ≡ buffered_of self.now }
        ensures bound { length result.now ≤ most_at_once }
    {
        self.window.as_slice()
    }

    /// The bytes that are buffered and aren't taken; where there are none, the next piece is read first. No bytes are
    /// the end of the file. After `Failed` the feed is as it was.
    pub fn fill(&mut self) -> Result<&[u8], Failed>
        ensures ok { IfOk result (λ bytes. IsInOrder D.Depot self.old → OffersNext D.Depot self.old bytes.now) }
        ensures kept { (0 < length (buffered_of self.old)) ⊎ (place_of self.old ≡ 2 ^ 64 - 1)
            → IsOk result × IfOk result (λ bytes. bytes.now ≡ buffered_of self.old) }
        ensures bound { IfOk result (λ bytes. length bytes.now ≤ most_at_once) }
        ensures* after_borrow { sem 𝓛
            (Rests (feed_row (record { mir = named 1; lft = [] }) D.row) self.entry
            (λ new. Filled D.Depot self.old new result)) }
    {
        self.refill()?;
        Ok(self.buffered())
    }

    /// Takes bytes that are buffered.
    pub fn take(&mut self, n: usize)
        requires { n ≤ length (buffered_of self.old) }
        ensures same_reference { reference_of self.new ≡ reference_of self.old }
        ensures depot { depot_of self.new ≡ depot_of self.old }
        ensures name { name_of self.new ≡ name_of self.old }
        ensures at { place_of self.new ≡ place_of self.old + n }
        ensures window { buffered_of self.new ≡ drop n (buffered_of self.old) }
        ensures in_order { IsInOrder D.Depot self.old → IsInOrder D.Depot self.new }
        ensures stands { (file : List ℕ) → StandsIn D.Depot self.old file → StandsIn D.Depot self.new file }
    {
        self.window.consume(n);
        self.at += n as u64;
    }

    /// How many bytes were taken.
    pub fn at(&self) -> u64
        ensures { result ≡ place_of self.now }
    {
        self.at
    }
}
