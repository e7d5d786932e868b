/// What is called before each group is built. It changes no answer: a caller may count the groups by it, or hold a
/// builder up.
pub trait Gate {
    /// The group at this place, counted from 0, is built next.
    fn enter(&self, place: u32);
}

/// A gate that does nothing.
#[derive(Clone, Copy, Debug, PartialEq, Eq)]
pub struct Open;

impl Gate for Open {
    fn enter(&self, _place: u32) {}
}
