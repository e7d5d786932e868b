//! CRLs.

ghost use Rattle.std.specs.Prelude.{◌≡◌, ◌+◌, ◌*◌, ◌≤◌, ◌<◌, ◌^◌, ◌++◌, [], if◌then◌else◌, length, IfOk, OnOk};
ghost use Rattle.ident_core.specs.declared.bounds.TheConstants.{MAX_SAMPLE};
ghost use Rattle.sample_core.specs.Sample.{is_listed as is_listed_of, is_listed_by as is_listed_by_issuer, der_length};
ghost use Rattle.sample_core.specs.Sample.{sequence, sequence_of_some, date, algorithm, revoked_entry, revoked_entries};
ghost use Rattle.sample_core.specs.Sample.{crl_body, crl_with};

use crate::digests::digest_of_entry;
use octets_core::{NoMemory, put_bytes, put_u8, put_u16, put_u24, put_u32};
use std::alloc::Global;

/// UTCTime 231114221320Z.
const DATE: [u8; 15] = *b"\x17\x0d231114221320Z";

/// The AlgorithmIdentifier of ecdsa-with-SHA256 (RFC 5758, 3.2).
const ALGORITHM: [u8; 12] = [
    0x30, 0x0a, 0x06, 0x08, 0x2a, 0x86, 0x48, 0xce, 0x3d, 0x04, 0x03, 0x02,
];

/// Whether a CRL lists the entry.
pub fn is_listed(index: u32) -> bool
    ensures { result ≡ is_listed_of index }
{
    index / 4 % 100 == 0
}

fn put_length(out: &mut Vec<u8>, length: u32) -> Result<(), NoMemory>
    ensures { OnOk result (out.new.items ≡ out.old.items ++ der_length length) }
{
    if length < 128 {
        return put_u8(out, length as u8);
    }
    if length < 256 {
        put_u8(out, 0x81)?;
        return put_u8(out, length as u8);
    }
    if length < 65_536 {
        put_u8(out, 0x82)?;
        return put_u16(out, length as u16);
    }
    if length < 16_777_216 {
        put_u8(out, 0x83)?;
        return put_u24(out, length);
    }
    put_u8(out, 0x84)?;
    put_u32(out, length)
}

fn sequence_text(alloc: Global, contents: &[u8]) -> Result<Vec<u8>, NoMemory>
    requires { length contents.now < 2 ^ 32 }
    ensures text { IfOk result (λ v. v.items ≡ sequence contents.now) }
    ensures len { IfOk result (λ v. length v.items ≤ length contents.now + 6) }
{
    let mut out = Vec::with_capacity(alloc, contents.len() + 6)?;
    put_u8(&mut out, 0x30)?;
    put_length(&mut out, contents.len() as u32)?;
    put_bytes(&mut out, contents)?;
    Ok(out)
}

fn some_sequence(alloc: Global, contents: &[u8]) -> Result<Vec<u8>, NoMemory>
    requires { length contents.now < 2 ^ 32 }
    ensures text { IfOk result (λ v. v.items ≡ sequence_of_some contents.now) }
    ensures len { IfOk result (λ v. length v.items ≤ length contents.now + 6) }
{
    if contents.len() == 0 {
        return Ok(Vec::new(alloc));
    }
    sequence_text(alloc, contents)
}

#[tactic(auto, unfolding(crate::specs::Sample::serial_of))]
fn put_revoked(out: &mut Vec<u8>, number: u64, index: u32) -> Result<(), NoMemory>
    ensures { OnOk result (out.new.items ≡ out.old.items ++ revoked_entry number index) }
{
    let digest = digest_of_entry(number, index);
    put_bytes(out, &[0x30, 0x21, 0x02, 0x10, 0x01])?;
    put_bytes(out, &digest[..15])?;
    put_bytes(out, &DATE)
}

fn is_listed_by(issuer: u8, index: u32) -> bool
    ensures { result ≡ is_listed_by_issuer issuer index }
{
    is_listed(index) && index % 4 == issuer as u32
}

fn put_listed(out: &mut Vec<u8>, number: u64, index: u32, issuer: u8) -> Result<(), NoMemory>
    ensures { OnOk result (out.new.items ≡ out.old.items ++ (if is_listed_by_issuer issuer index then revoked_entry number index else [])) }
{
    if is_listed_by(issuer, index) {
        return put_revoked(out, number, index);
    }
    Ok(())
}

fn revoked_text(alloc: Global, number: u64, count: u32, issuer: u8) -> Result<Vec<u8>, NoMemory>
    ensures text { IfOk result (λ v. v.items ≡ revoked_entries number count issuer) }
    ensures len { IfOk result (λ v. length v.items ≤ 35 * count) }
{
    let mut out = Vec::new(alloc);
    for i in 0..count {
        put_listed(&mut out, number, i, issuer)?;
    }
    Ok(out)
}

fn body_text(alloc: Global, entries: &[u8]) -> Result<Vec<u8>, NoMemory>
    requires { length entries.now ≤ 35000000 }
    ensures text { IfOk result (λ v. v.items ≡ crl_body entries.now) }
    ensures len { IfOk result (λ v. length v.items ≤ length entries.now + 44) }
{
    let mut contents = Vec::new(alloc);
    put_bytes(&mut contents, &[0x02, 0x01, 0x01])?;
    put_bytes(&mut contents, &ALGORITHM)?;
    put_bytes(&mut contents, &[0x30, 0x00])?;
    put_bytes(&mut contents, &DATE)?;
    let revoked = some_sequence(alloc, entries)?;
    put_bytes(&mut contents, revoked.as_slice())?;
    sequence_text(alloc, contents.as_slice())
}

/// The CRL with these entries.
fn crl_of_entries(alloc: Global, entries: &[u8]) -> Result<Vec<u8>, NoMemory>
    requires { length entries.now ≤ 35000000 }
    ensures text { IfOk result (λ v. v.items ≡ crl_with entries.now) }
    ensures len { IfOk result (λ v. length v.items ≤ length entries.now + 65) }
{
    let mut contents = body_text(alloc, entries)?;
    put_bytes(&mut contents, &ALGORITHM)?;
    put_bytes(&mut contents, &[0x03, 0x01, 0x00])?;
    sequence_text(alloc, contents.as_slice())
}

/// The CRL of an issuer.
pub fn crl_bytes(alloc: Global, number: u64, count: u32, issuer: u8) -> Result<Vec<u8>, NoMemory>
    requires { count ≤ MAX_SAMPLE }
    ensures text { IfOk result (λ v. v.items ≡ crl_with (revoked_entries number count issuer)) }
    ensures len { IfOk result (λ v. length v.items ≤ 35000065) }
{
    let entries = revoked_text(alloc, number, count, issuer)?;
    crl_of_entries(alloc, entries.as_slice())
}
