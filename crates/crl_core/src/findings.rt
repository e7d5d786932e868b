/// What extensions say of a CRL: whether it is a delta or an indirect one, and whether one of them is critical and
/// unknown.
#[derive(Clone, Copy, Debug)]
pub(crate) struct Findings {
    pub(crate) delta: bool,
    pub(crate) indirect: bool,
    pub(crate) unknown: bool,
}

mod found;

pub(crate) use found::{both, found_in_crl, found_in_entry, nothing};
