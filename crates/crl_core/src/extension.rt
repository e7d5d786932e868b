/// An extension of a CRL, of one of its entries or of a certificate (RFC 5280, 4.1 and 5.1). Where no BOOLEAN says so
/// it isn't critical.
#[derive(Clone, Copy, Debug)]
pub struct Extension<'a> {
    /// The contents of the OBJECT IDENTIFIER.
    pub oid: &'a [u8],
    pub critical: bool,
    /// The contents of the OCTET STRING.
    pub value: &'a [u8],
}

mod read;

pub use read::extension_of;
pub(crate) use read::{is_id_ce, point_of};
