ghost use Rattle.std.specs.Prelude.{◌≡◌};
ghost use Rattle.std.specs.Option.{option_map};
ghost use Rattle.der_core.specs.Elements.{der_of, items};
ghost use Rattle.der_core.specs.Walk.{each};
ghost use Rattle.crl_core.specs.Extensions.{ext_of, extension, crl_extension};
ghost use Rattle.crl_core.specs.Findings.{nothing, both, is_known_in_entry, is_known_in_crl, entry_finding};
ghost use Rattle.crl_core.specs.Findings.{crl_finding, found_in_entry, found_in_crl};

use crate::extension::{Extension, extension_of, is_id_ce, point_of};
use crate::findings::Findings;
use der_core::Element;
use der_core::read::elements;

pub(crate) fn nothing() -> Findings
    ensures { result ≡ nothing }
{
    Findings {
        delta: false,
        indirect: false,
        unknown: false,
    }
}

pub(crate) fn both(x: Findings, y: Findings) -> Findings
    ensures { result ≡ both x y }
{
    Findings {
        delta: x.delta | y.delta,
        indirect: x.indirect | y.indirect,
        unknown: x.unknown | y.unknown,
    }
}

fn is_known_in_entry(oid: &[u8]) -> bool
    ensures { result ≡ is_known_in_entry oid.now }
{
    is_id_ce(0x15, oid) || is_id_ce(0x18, oid) || is_id_ce(0x1d, oid)
}

fn is_known_in_crl(oid: &[u8]) -> bool
    ensures { result ≡ is_known_in_crl oid.now }
{
    is_id_ce(0x14, oid)
        || is_id_ce(0x23, oid)
        || is_id_ce(0x2e, oid)
        || is_id_ce(0x12, oid)
        || is_id_ce(0x1c, oid)
        || is_id_ce(0x1b, oid)
}

fn entry_finding(x: &Extension<'_>) -> Findings
    ensures { result ≡ entry_finding (ext_of x.now) }
{
    Findings {
        delta: false,
        indirect: is_id_ce(0x1d, x.oid),
        unknown: x.critical && !is_known_in_entry(x.oid),
    }
}

/// What the extensions of an entry say.
pub(crate) fn found_in_entry(contents: &[u8]) -> Option<Findings>
    ensures { result ≡ option_map found_in_entry (each extension (items contents.now)) }
{
    let mut found = nothing();
    for item in elements(contents) {
        let Ok(e) = item else {
            return None;
        };
        let x = extension_of(&e)?;
        found = both(found, entry_finding(&x));
    }
    Some(found)
}

/// What an extension of a CRL says, if it can be read.
fn crl_finding(e: &Element<'_>) -> Option<Findings>
    ensures { result ≡ option_map crl_finding (crl_extension (der_of e.now)) }
{
    let x = extension_of(e)?;
    let indirect = point_of(&x)?;
    Some(Findings {
        delta: is_id_ce(0x1b, x.oid),
        indirect,
        unknown: x.critical && !is_known_in_crl(x.oid),
    })
}

/// What the extensions of a CRL say.
pub(crate) fn found_in_crl(contents: &[u8]) -> Option<Findings>
    ensures { result ≡ option_map found_in_crl (each crl_extension (items contents.now)) }
{
    let mut found = nothing();
    for item in elements(contents) {
        let Ok(e) = item else {
            return None;
        };
        found = both(found, crl_finding(&e)?);
    }
    Some(found)
}
