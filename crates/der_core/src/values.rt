ghost use Rattle.std.specs.Prelude.{◌≡◌};
ghost use Rattle.std.specs.Option.{option_map};
ghost use Rattle.der_core.specs.Elements.{der_of};
ghost use Rattle.der_core.specs.Values.{boolean_of, contents_of, truth};

use crate::types::Element;

/// The value that the contents of a BOOLEAN spell: 00 or ff, as DER has it (X.690, 11.1).
pub fn truth_of(contents: &[u8]) -> Option<bool>
    ensures { result ≡ truth contents.now }
{
    match contents {
        [0x00] => Some(false),
        [0xff] => Some(true),
        _ => None,
    }
}

/// The value of a BOOLEAN.
pub fn boolean(e: &Element<'_>) -> Option<bool>
    ensures { result ≡ boolean_of (der_of e.now) }
{
    if e.tag == 0x01 {
        truth_of(e.contents)
    } else {
        None
    }
}

/// The contents of an OBJECT IDENTIFIER.
pub fn oid<'a>(e: &Element<'a>) -> Option<&'a [u8]>
    ensures { option_map (λ x. x.now) result ≡ contents_of 0x06 (der_of e.now) }
{
    if e.tag == 0x06 {
        Some(e.contents)
    } else {
        None
    }
}

/// The contents of an OCTET STRING.
pub fn octets<'a>(e: &Element<'a>) -> Option<&'a [u8]>
    ensures { option_map (λ x. x.now) result ≡ contents_of 0x04 (der_of e.now) }
{
    if e.tag == 0x04 {
        Some(e.contents)
    } else {
        None
    }
}
