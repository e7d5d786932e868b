ghost use Rattle.std.specs.Prelude.{◌≡◌, ℕ, List, Ok, IfOk, IfSome};
ghost use Rattle.std.specs.Option.{option_map};
ghost use Rattle.sha2.specs.Sha256.{sha256};
ghost use Rattle.octets_core.specs.Walk.{Walks, value_of};
ghost use Rattle.log_core.specs.CertificateGrammar.{HasKey};
ghost use Rattle.log_core.specs.Leaves.{GivesHash};
ghost use Rattle.log_core.specs.Certificates.{if_short, serial, signature_and_issuer, public_key, certificate_contents};
ghost use Rattle.log_core.specs.Certificates.{tbs_serial, certificate_serial, certificate_key, certificate_tail};
ghost use Rattle.log_core.specs.Certificates.{second_time, expiry, not_after, tbs_until, certificate_until};

use crate::Unread;
use der_core::read::elements;
use der_core::walk::{alone, any_element, ends, field, optional, whole_field};
use der_core::{Elements, time};
use ident_core::Serial;
use octets_core::Key32;
use sha2::{Digest, Sha256};

/// What an entry takes of a TBS: the serial, and the notAfter, which may be missing.
#[derive(Clone, Copy, Debug)]
pub(crate) struct Tbs {
    pub(crate) serial: Serial,
    pub(crate) until: Option<i64>,
}

fn serial_from(octets: &[u8]) -> Option<Serial>
    ensures { result ≡ if_short octets.now }
{
    Serial::new(octets).ok()
}

/// The serial, behind the version, if that is there.
#[tactic(auto, unfolding(crate::specs::Certificates::serial))]
fn serial_of(fields: &mut Elements<'_>) -> Option<Serial>
    ensures { Walks (λ x. x) serial fields.old fields.new result }
{
    let _ = optional(fields, 0xa0);
    let octets = field(fields, 0x02)?;
    serial_from(octets)
}

/// What stands between the serial and the validity.
#[tactic(auto, unfolding(crate::specs::Certificates::signature_and_issuer))]
fn pass_signature_and_issuer(fields: &mut Elements<'_>) -> Option<()>
    ensures { Walks (λ x. x) signature_and_issuer fields.old fields.new result }
{
    any_element(fields)?;
    any_element(fields)?;
    Some(())
}

/// The second element of a validity, which has two, if it is a time.
#[tactic(auto, unfolding(crate::specs::Certificates::second_time))]
fn second_time_of(validity: &[u8]) -> Option<i64>
    ensures { result ≡ value_of (second_time validity.now) }
{
    let mut fields = elements(validity);
    let _not_before = any_element(&mut fields)?;
    let not_after = any_element(&mut fields)?;
    ends(&mut fields)?;
    time(&not_after).ok()
}

/// The notAfter, behind the serial, if the validity has the form of one.
#[tactic(auto, unfolding(crate::specs::Certificates::expiry))]
fn expiry_of(fields: &mut Elements<'_>) -> Option<i64>
    ensures { result ≡ value_of (expiry fields.old) }
{
    pass_signature_and_issuer(fields)?;
    second_time_of(field(fields, 0x30)?)
}

/// The subjectPublicKeyInfo, with its tag and length.
#[tactic(auto, unfolding(crate::specs::Certificates::public_key))]
fn public_key_of<'a>(fields: &mut Elements<'a>) -> Option<&'a [u8]>
    ensures { Walks (λ x. x.now) public_key fields.old fields.new result }
{
    serial_of(fields)?;
    pass_signature_and_issuer(fields)?;
    any_element(fields)?;
    any_element(fields)?;
    whole_field(fields, 0x30)
}

/// The contents of a certificate's TBS.
fn certificate_of(bytes: &[u8]) -> Option<&[u8]>
    ensures { option_map (λ x. x.now) result ≡ certificate_contents bytes.now }
{
    let contents = alone(bytes, 0x30)?;
    field(&mut elements(contents), 0x30)
}

/// What an entry takes of the contents of a TBS.
#[tactic(auto, unfolding(crate::specs::Certificates::not_after))]
fn tbs_in(contents: &[u8]) -> Option<Tbs>
    ensures serial { option_map (λ t. t.serial) result ≡ value_of (serial contents.now) }
    ensures until { IfSome result (λ t. t.until ≡ value_of (not_after contents.now)) }
{
    let mut fields = elements(contents);
    let serial = serial_of(&mut fields)?;
    let until = expiry_of(&mut fields);
    Some(Tbs { serial, until })
}

/// What an entry takes of a precertificate's TBS.
pub(crate) fn tbs_of(bytes: &[u8]) -> Option<Tbs>
    ensures serial { option_map (λ t. t.serial) result ≡ tbs_serial bytes.now }
    ensures until { IfSome result (λ t. t.until ≡ tbs_until bytes.now) }
{
    tbs_in(alone(bytes, 0x30)?)
}

/// What an entry takes of a certificate.
pub(crate) fn certificate_tbs_of(bytes: &[u8]) -> Option<Tbs>
    ensures serial { option_map (λ t. t.serial) result ≡ certificate_serial bytes.now }
    ensures until { IfSome result (λ t. t.until ≡ certificate_until bytes.now) }
{
    tbs_in(certificate_of(bytes)?)
}

/// The serial of a certificate (RFC 5280, 4.1.2.2), where it has 1 to 32 octets.
pub fn certificate_serial_of(bytes: &[u8]) -> Option<Serial>
    ensures { result ≡ certificate_serial bytes.now }
{
    let mut fields = elements(certificate_of(bytes)?);
    serial_of(&mut fields)
}

/// The elements behind the subjectPublicKeyInfo in a certificate's TBS (RFC 5280, 4.1).
pub fn elements_behind_key(bytes: &[u8]) -> Option<Elements<'_>>
    ensures { result ≡ certificate_tail bytes.now }
{
    let mut fields = elements(certificate_of(bytes)?);
    public_key_of(&mut fields)?;
    Some(fields)
}

fn certificate_key_of(bytes: &[u8]) -> Option<&[u8]>
    ensures { option_map (λ x. x.now) result ≡ certificate_key bytes.now }
{
    let mut fields = elements(certificate_of(bytes)?);
    public_key_of(&mut fields)
}

fn key_hash(cert: &[u8]) -> Result<Key32, Unread>
    ensures { GivesHash (certificate_key cert.now) result }
{
    let key = certificate_key_of(cert).ok_or(Unread)?;
    Ok(Key32::new(Sha256::digest(key)))
}

/// The SHA-256 of a certificate's DER SubjectPublicKeyInfo, with its tag and length (RFC 5280, 4.1).
pub fn issuer_hash(cert: &[u8]) -> Result<Key32, Unread>
    // What is given is the hash of the key of a certificate, and that of each certificate is given.
    ensures found { IfOk result (λ hash. (key : List ℕ) × HasKey key cert.now × (hash ≡ sha256 key)) }
    ensures only { (key : List ℕ) → HasKey key cert.now → result ≡ Ok (sha256 key) }
    ensures exact { GivesHash (certificate_key cert.now) result }
{
    key_hash(cert)
}
