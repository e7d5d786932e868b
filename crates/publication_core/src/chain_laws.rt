//! The parts of a history are a client's chain.

ghost use Rattle.std.specs.Prelude.{◌≤◌, All};
ghost use Rattle.part_text.specs.Fitting.{Fits};
ghost use Rattle.ident_core.specs.declared.bounds.TheConstants.{MAX_PARTS};
ghost use Rattle.store_core.specs.Chain.{IsChain};
ghost use Rattle.publication_core.specs.Histories.{History, IsHistory, members, parts_of};

/// The parts of a history are a chain, at most 64 of them, and each has a text.
pub fn parts_are_chains()
    ensures chain { (h : History) → IsHistory h → IsChain (parts_of h) }
    ensures few { (h : History) → IsHistory h → members h ≤ MAX_PARTS }
    ensures texts { (h : History) → IsHistory h → All Fits (parts_of h) }
{}
