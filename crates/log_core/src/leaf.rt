use octets_core::Key32;

/// The fields of a leaf.
#[derive(Clone, Copy, Debug)]
pub(crate) struct Leaf<'a> {
    pub(crate) time: u64,
    pub(crate) issuer: Option<Key32>,
    pub(crate) signed: &'a [u8],
}
