/// How the blocks of a part are cut.
#[derive(Clone, Copy, Debug, PartialEq, Eq)]
pub enum Format {
    /// Each block is one leaf.
    Plain,
    /// Large blocks are cut into shards.
    Sharded,
}
