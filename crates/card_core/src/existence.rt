//! Laws of the definitions, apart from all code: there is a filter, or one is refused.

ghost use Rattle.card_core.specs.Laws.{FilterOrRefusal, LeafOrRefusal};

/// Each universe and its revoked part have a leaf, or a stage of theirs is refused, under any hash. So the definition
/// of a leaf has a value wherever none is refused.
pub fn a_leaf_or_a_refusal()
    ensures { LeafOrRefusal }
{}

/// The same of a filter, into however many shards it is cut.
pub fn a_filter_or_a_refusal()
    ensures { FilterOrRefusal }
{}
