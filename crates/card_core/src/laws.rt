//! Laws of the definitions, apart from all code. Each is a function that does nothing, and its clause says the law.

ghost use Rattle.card_core.specs.Cutting.{CutIsOfShard, ShardRefusesFilter, ShardsMakeFilter};
ghost use Rattle.card_core.specs.Laws.{BlockIsExact, BlockIsUnique, BodyIsOfOneLeaf, RefusedHasNoBlock};
ghost use Rattle.card_core.specs.Laws.{FilterIsExact, FilterIsUnique, OneShardIsRefused, OneStageRefusesFilter, RefusedHasNoFilter};
ghost use Rattle.card_core.specs.Laws.{LeafIsExact, LeafIsUnique, OneStageIsRefused, RefusedHasNoLeaf};

/// A leaf is exact on its universe: it tests positive for the revoked identities, and not for the others. This holds
/// under any hash.
pub fn leaf_is_exact()
    ensures { LeafIsExact }
{}

/// A universe and its revoked part have one leaf at most.
pub fn leaf_is_unique()
    ensures { LeafIsUnique }
{}

/// Where a stage is refused there is no leaf.
pub fn refused_has_no_leaf()
    ensures { RefusedHasNoLeaf }
{}

/// A universe and its revoked part have one refused stage at most.
pub fn one_stage_is_refused()
    ensures { OneStageIsRefused }
{}

/// A filter is exact on its universe, however it is cut: it tests positive for the revoked identities, and not for the
/// others. This holds under any hash.
pub fn filter_is_exact()
    ensures { FilterIsExact }
{}

/// A universe, its revoked part and a shift have one filter at most.
pub fn filter_is_unique()
    ensures { FilterIsUnique }
{}

/// Where a shard is refused there is no filter.
pub fn refused_has_no_filter()
    ensures { RefusedHasNoFilter }
{}

/// One shard at most is the first that is refused.
pub fn one_shard_is_refused()
    ensures { OneShardIsRefused }
{}

/// A universe, its revoked part and a shift have one stage at most that refuses the filter.
pub fn one_stage_refuses_filter()
    ensures { OneStageRefusesFilter }
{}

/// The identities and the flags of a shard, cut from those of an issuer, flag the shard's members as the issuer's flags
/// do. The leaves of all shards make the filter, and a shard that is refused refuses it.
pub fn cuts_are_of_shards()
    ensures cut { CutIsOfShard }
    ensures joined { ShardsMakeFilter }
    ensures refused { ShardRefusesFilter }
{}

/// A body is that of one leaf alone.
pub fn body_is_of_one_leaf()
    ensures { BodyIsOfOneLeaf }
{}

/// For a member of the universe, the block of the universe and its revoked part says yes exactly if it is in the
/// revoked part, however the block is cut.
pub fn block_is_exact()
    ensures { BlockIsExact }
{}

/// A universe, its revoked part and a shift have one block at most.
pub fn block_is_unique()
    ensures { BlockIsUnique }
{}

/// Where a stage is refused there is no block.
pub fn refused_has_no_block()
    ensures { RefusedHasNoBlock }
{}
