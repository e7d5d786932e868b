//! Laws of the definitions, apart from all code. Each is a function that does nothing, and its clause says the law.

ghost use Rattle.builder_core.specs.Laws.{GroupBlockIsExact, GroupBlocksAreUnique, OneIsFirstRefused, OutcomesGiveBlocks};
ghost use Rattle.builder_core.specs.Laws.{OutcomesAreUnique, RefusedHasNoBlocks, ShardsAreUnique, ShiftsAreGreatest};

/// In each format the block of a group tests positive for exactly those of its universe that are revoked.
pub fn group_block_is_exact()
    ensures { GroupBlockIsExact }
{}

/// A universe is cut by the greatest shift that leaves its shards enough identities.
pub fn shifts_are_greatest()
    ensures { ShiftsAreGreatest }
{}

/// In each format groups have one list of blocks at most.
pub fn group_blocks_are_unique()
    ensures { GroupBlocksAreUnique }
{}

/// Where a group is refused there are no blocks of all groups.
pub fn refused_has_no_blocks()
    ensures { RefusedHasNoBlocks }
{}

/// One issuer at most is the first that is refused, at one stage.
pub fn one_is_first_refused()
    ensures { OneIsFirstRefused }
{}

/// What comes of each group by itself, in order and whoever built it, gives the blocks of all groups or the first
/// refusal.
pub fn outcomes_give_blocks()
    ensures { OutcomesGiveBlocks }
{}

/// Runs of neighbours have one list of shards, whoever draws them.
pub fn shards_are_unique()
    ensures { ShardsAreUnique }
{}

/// Leaves have one list of outcomes where memory suffices, whoever builds them: the block or the leaf, or the refusal.
pub fn outcomes_are_unique()
    ensures { OutcomesAreUnique }
{}
