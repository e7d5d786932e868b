//! The rule of the counter, and the three kinds of step under it.
use atomic_table::{Join, Play, Split, TableRule};
use std::collections::LinkedList;

/// What a seat has drawn, and whether another seat took it in. No value of it is made.
pub struct View {
    pub spent: bool,
    pub numbers: LinkedList<u64>,
}

/// The rule of the counter.
pub struct Counting;

impl TableRule<(), View, ()> for Counting {
    ghost use Rattle.std.specs.Prelude.{false, []};
    ghost use Rattle.claim_core.specs.Counting.{IsCounted, view_of};

    ghost holds = { λ _ state. IsCounted state.words state.views };

    ghost first = { λ _. view_of false [] };
}

/// The number found is put behind those of the seat.
pub(crate) struct Drawing;

impl Play<(), View> for Drawing {
    ghost use Rattle.claim_core.specs.Counting.{Finds};

    ghost then = { Finds };
}

/// A new seat has drawn nothing, and the old one keeps its numbers.
pub(crate) struct Parting;

impl Split<View> for Parting {
    ghost use Rattle.std.specs.Prelude.{false, []};
    ghost use Rattle.claim_core.specs.Counting.{view_of};

    ghost left = { λ v. v };

    ghost right = { λ _. view_of false [] };
}

/// One seat has the numbers of both, and the other is spent.
pub(crate) struct Merging;

impl Join<View> for Merging {
    ghost use Rattle.std.specs.Prelude.{◌++◌, true, []};
    ghost use Rattle.claim_core.specs.Counting.{view_of};

    ghost both = { λ v w. view_of v.spent (v.numbers ++ w.numbers) };

    ghost spent = { view_of true [] };
}
