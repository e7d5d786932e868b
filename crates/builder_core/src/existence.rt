//! A law of the definitions, apart from all code: groups have blocks, or one is refused.

ghost use Rattle.builder_core.specs.Laws.{BlocksOrRefusal};

/// In each format groups have blocks, or one of them is the first that is refused, under any hash.
pub fn blocks_or_a_refusal()
    ensures { BlocksOrRefusal }
{}
