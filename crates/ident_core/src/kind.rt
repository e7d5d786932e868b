/// Whether a part begins a chain or follows others.
#[derive(Clone, Copy, Debug, PartialEq, Eq)]
pub enum Kind {
    /// It stands alone.
    Snapshot,
    /// It stands on the part that its parent names.
    Delta,
}
