ghost use Rattle.std.specs.Prelude.{◌≡◌, List, ℕ, Option, Some, Ok, Err, IfOk};
ghost use Rattle.std.specs.Str.{bytes_eq};
ghost use Rattle.std.specs.Option.{option_map};
ghost use Rattle.octets_core.specs.Walk.{value_of};
ghost use Rattle.der_core.specs.Elements.{der_of};
ghost use Rattle.ident_core.specs.declared.range.Sighting.{Sighting};
ghost use Rattle.log_core.specs.CertificateGrammar.{IsCertificate};
ghost use Rattle.log_core.specs.Certificates.{certificate_serial};
ghost use Rattle.sct_core.specs.Timestamps.{sightings_among};
ghost use Rattle.sct_core.specs.Extensions.{sct_oid, extensions_in, value_from, value_among, value_in, whole_list, list_in};
ghost use Rattle.sct_core.specs.Grammar.{IsMalformed, HasNoList, HasBadList, HasList, HasSightings};
ghost use Rattle.sct_core.specs.declared.fault.CertFault.TheVariants as fault;
ghost use Rattle.sct_core.specs.Outcome.{of_sightings, sightings_of, GivesSerial};

use crate::CertFault;
use crate::bounds::MAX_CERTIFICATE;
use crate::list::{nothing_left, sightings_in};
use crate::timestamps::Scts;
use crl_core::extension_of;
use der_core::read::elements;
use der_core::walk::alone;
use der_core::{Element, Elements};
use ident_core::Serial;
use log_core::{certificate_serial_of, elements_behind_key};
use octets_core::vectors::split_some_vector;

/// The contents of the first element of extensions, if elements are left and nothing else.
fn first_extensions(tail: Elements<'_>) -> Option<Option<&[u8]>>
    ensures { option_map (λ x. option_map (λ y. y.now) x) result ≡ extensions_in tail.entry }
{
    let mut found: Option<&[u8]> = None;
    for item in tail {
        let Ok(e) = item else {
            return None;
        };
        if found.is_none() && e.tag == 0xa3 {
            found = Some(e.contents);
        }
    }
    Some(found)
}

/// Whether these are the contents of the OID 1.3.6.1.4.1.11129.2.4.2 (RFC 6962, 3.3).
fn is_sct_oid(oid: &[u8]) -> bool
    ensures { result ≡ bytes_eq oid.now sct_oid }
{
    oid == [0x2b, 0x06, 0x01, 0x04, 0x01, 0xd6, 0x79, 0x02, 0x04, 0x02].as_slice()
}

/// The value of an extension, where it is the one of timestamps.
fn value_of_scts<'a>(e: &Element<'a>) -> Option<Option<&'a [u8]>>
    ensures { option_map (λ x. option_map (λ y. y.now) x) result ≡ value_from (der_of e.now) }
{
    let extension = extension_of(e)?;
    Some(if is_sct_oid(extension.oid) {
        Some(extension.value)
    } else {
        None
    })
}

/// The value of the first extension of timestamps, if extensions stand here and nothing else.
fn first_value(contents: &[u8]) -> Option<Option<&[u8]>>
    ensures { option_map (λ x. option_map (λ y. y.now) x) result ≡ value_among (Some contents.now) }
{
    let mut found: Option<&[u8]> = None;
    for item in elements(contents) {
        let Ok(e) = item else {
            return None;
        };
        let value = value_of_scts(&e)?;
        if found.is_none() {
            found = value;
        }
    }
    Some(found)
}

fn value_within(explicit: &[u8]) -> Option<Option<&[u8]>>
    ensures { option_map (λ x. option_map (λ y. y.now) x) result ≡ value_in explicit.now }
{
    let contents = alone(explicit, 0x30)?;
    first_value(contents)
}

#[tactic(auto, unfolding(crate::specs::Extensions::whole_list))]
fn whole_list_of(bytes: &[u8]) -> Option<&[u8]>
    ensures { option_map (λ x. x.now) result ≡ value_of (whole_list bytes.now) }
{
    let (list, rest) = split_some_vector(bytes, 2)?;
    nothing_left(rest)?;
    Some(list)
}

/// The timestamps in the value of an extension, one behind the other.
fn list_within(value: &[u8]) -> Option<&[u8]>
    ensures { option_map (λ x. x.now) result ≡ list_in value.now }
{
    let contents = alone(value, 0x04)?;
    whole_list_of(contents)
}

fn read_scts(cert: &[u8]) -> Result<Scts, CertFault>
    ensures { result ≡ sightings_of cert.now }
{
    if cert.len() > MAX_CERTIFICATE {
        return Err(CertFault::Malformed);
    }
    let tail = elements_behind_key(cert).ok_or(CertFault::Malformed)?;
    let extensions = first_extensions(tail).ok_or(CertFault::Malformed)?;
    let explicit = extensions.ok_or(CertFault::NoScts)?;
    let found = value_within(explicit).ok_or(CertFault::Malformed)?;
    let value = found.ok_or(CertFault::NoScts)?;
    let list = list_within(value).ok_or(CertFault::BadScts)?;
    sightings_in(list)
}

/// What the signed certificate timestamps of version 1 of a certificate say (RFC 6962, 3.3), or the first fault in the
/// order of `CertFault`; but where no timestamp is of version 1, a list that can't be read comes first.
pub fn scts(cert: &[u8]) -> Result<Scts, CertFault>
    // What is given is what the certificate has, and what a certificate has is given.
    ensures found { IfOk result (λ seen. HasSightings seen cert.now) }
    ensures only { (seen : List Sighting) → HasSightings seen cert.now → result ≡ Ok seen }
    // The faults, each by what the bytes are.
    ensures malformed { IsMalformed cert.now → result ≡ Err fault.Malformed }
    ensures none { HasNoList cert.now → result ≡ Err fault.NoScts }
    ensures bad { HasBadList cert.now → result ≡ Err fault.BadScts }
    // Where a list of timestamps is there: none of version 1, too many, or the sightings.
    ensures listed { (all : List (Option Sighting)) → HasList all cert.now → result ≡ of_sightings (sightings_among all) }
    // Which fault comes first.
    ensures exact { result ≡ sightings_of cert.now }
{
    read_scts(cert)
}

fn serial_in(cert: &[u8]) -> Result<Serial, CertFault>
    ensures { GivesSerial (certificate_serial cert.now) result }
{
    certificate_serial_of(cert).ok_or(CertFault::Malformed)
}

/// The serial of a certificate, of 1 to 32 octets, or `Malformed`. The bytes may be of any length.
pub fn cert_serial(cert: &[u8]) -> Result<Serial, CertFault>
    ensures found { IfOk result (λ serial. IsCertificate serial cert.now) }
    ensures only { (serial : List ℕ) → IsCertificate serial cert.now → result ≡ Ok serial }
    ensures exact { GivesSerial (certificate_serial cert.now) result }
{
    serial_in(cert)
}
