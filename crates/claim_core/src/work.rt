ghost use Rattle.std.specs.Prelude.{◌≡◌, ℕ, ◌<◌, IfOk};
ghost use Rattle.claim_core.specs.Work.{OutputsAreUnique};

use octets_core::NoMemory;

/// Work at places, each of which gives an output. A type with this trait keeps the allocator that its work needs.
pub trait Work {
    type Out;

    /// How many places there are.
    ghost size: { Self → ℕ };

    /// What a place may be worked under, as that a closure may be called; `Unit {0}` where there is nothing.
    ghost ready: { Self → Type 0 };

    /// The outputs that a place may give.
    ghost gives: { Self → ℕ → Self.Out → Type 0 };

    /// How many places there are.
    fn places(&self) -> u32
        ensures { result ≡ size self.now };

    /// An output of the place.
    fn work(&self, place: u32) -> Result<Self::Out, NoMemory>
        requires place { place < size self.now }
        requires ready { ready self.now }
        ensures { IfOk result (λ output. gives self.now place output) };
}

/// Where each place may give outputs of one view alone, all lists of the outputs have one view, whoever works the
/// places. The view is what counts of an output, as the items of a vector, or the output itself.
pub fn outputs_are_unique<W: Work, V>()
    ensures { (jobs : W) (view : W.Out → V) → OutputsAreUnique view (W.gives jobs) }
{}
