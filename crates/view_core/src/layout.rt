//! The widths of what stands before the parts of a store, the ranges of a part, the bodies of its blocks and the planes
//! of a stage.

/// The bytes of a store before its first part.
pub(crate) const STORE_HEAD: usize = 10;

/// The bytes of a part before its version.
pub(crate) const VERSION: usize = 8;

/// The bytes of a part before its ranges.
pub(crate) const PART_HEAD: usize = 52;

/// The bytes of the count of a part's blocks.
pub(crate) const COUNT: usize = 4;

/// The bytes of a block before its body: its issuer and its mode.
pub(crate) const BLOCK_HEAD: usize = 33;

/// The bytes of a stage before its planes: its seed and its starts.
pub(crate) const STAGE_HEAD: usize = 5;
