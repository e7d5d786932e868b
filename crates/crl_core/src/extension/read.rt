ghost use Rattle.std.specs.Prelude.{◌≡◌};
ghost use Rattle.std.specs.Option.{option_map};
ghost use Rattle.der_core.specs.Elements.{der_of, items};
ghost use Rattle.der_core.specs.Walk.{each};
ghost use Rattle.crl_core.specs.Extensions.{ext_of, extension, critical_of, is_id_ce, point_flag, point, point_of, some_true};

use crate::extension::Extension;
use der_core::read::elements;
use der_core::walk::{alone, ends, field, optional};
use der_core::{Element, truth_of};

fn critical_in(flag: Option<&[u8]>) -> Option<bool>
    ensures { result ≡ critical_of (option_map (λ x. x.now) flag.entry) }
{
    match flag {
        Some(contents) => truth_of(contents),
        None => Some(false),
    }
}

/// The extension that an element is.
#[tactic(auto, unfolding(crate::specs::Extensions::extension_fields, crate::specs::Extensions::extension))]
pub fn extension_of<'a>(e: &Element<'a>) -> Option<Extension<'a>>
    ensures { option_map ext_of result ≡ extension (der_of e.now) }
{
    if e.tag != 0x30 {
        return None;
    }
    let mut fields = elements(e.contents);
    let oid = field(&mut fields, 0x06)?;
    let flag = optional(&mut fields, 0x01);
    let critical = critical_in(flag)?;
    let value = field(&mut fields, 0x04)?;
    ends(&mut fields)?;
    Some(Extension {
        oid,
        critical,
        value,
    })
}

/// Whether these are the contents of the OID 2.5.29.n.
pub(crate) fn is_id_ce(n: u8, oid: &[u8]) -> bool
    ensures { result ≡ is_id_ce n oid.now }
{
    oid == [0x55, 0x1d, n].as_slice()
}

/// What an element of a distribution point says, if it can be read.
fn point_flag_of(e: &Element<'_>) -> Option<bool>
    ensures { result ≡ point_flag (der_of e.now) }
{
    if e.tag == 0x84 {
        truth_of(e.contents)
    } else {
        Some(false)
    }
}

fn some_flag(contents: &[u8]) -> Option<bool>
    ensures { result ≡ option_map some_true (each point_flag (items contents.now)) }
{
    let mut found = false;
    for item in elements(contents) {
        let Ok(e) = item else {
            return None;
        };
        let flag = point_flag_of(&e)?;
        found = found | flag;
    }
    Some(found)
}

/// Whether this value of a distribution point is one of an indirect CRL.
#[tactic(auto, unfolding(crate::specs::Extensions::point))]
fn point_in(value: &[u8]) -> Option<bool>
    ensures { result ≡ point value.now }
{
    let contents = alone(value, 0x30)?;
    some_flag(contents)
}

/// The same of an extension, which may be another one.
pub(crate) fn point_of(x: &Extension<'_>) -> Option<bool>
    ensures { result ≡ point_of (ext_of x.now) }
{
    if is_id_ce(0x1c, x.oid) {
        point_in(x.value)
    } else {
        Some(false)
    }
}
