//! The words that lines have for the values of enums.

ghost use Rattle.std.specs.Prelude.{◌≡◌, ◌≤◌, length};
ghost use Rattle.octets_core.specs.FieldNames.{name_of};
ghost use Rattle.line_core.specs.Lines.{kind_word, why_word, verdict_word, crl_word, cert_word, page_word, what_word};

use card_core::Verdict;
use crl_core::CrlFault;
use gather_core::PageFault;
use ident_core::Kind;
use job_core::What;
use octets_core::{Field, Why};
use sct_core::CertFault;

pub fn kind_text(kind: Kind) -> &'static [u8]
    ensures value { result.now ≡ kind_word kind }
    ensures len { length result.now ≤ 8 }
{
    match kind {
        Kind::Snapshot => b"snapshot",
        Kind::Delta => b"delta",
    }
}

pub fn field_text(field: Field) -> &'static [u8]
    ensures value { result.now ≡ name_of field }
    ensures len { length result.now ≤ 24 }
{
    field.name().as_bytes()
}

pub fn why_text(why: Why) -> &'static [u8]
    ensures value { result.now ≡ why_word why }
    ensures len { length result.now ≤ 6 }
{
    match why {
        Why::Short => b"short",
        Why::Value => b"value",
        Why::Digest => b"digest",
    }
}

pub fn verdict_text(verdict: Verdict) -> &'static [u8]
    ensures value { result.now ≡ verdict_word verdict }
    ensures len { length result.now ≤ 12 }
{
    match verdict {
        Verdict::NotCovered => b"not-covered",
        Verdict::NotEnrolled => b"not-enrolled",
        Verdict::Good => b"good",
        Verdict::Revoked => b"revoked",
    }
}

pub fn crl_text(fault: CrlFault) -> &'static [u8]
    ensures value { result.now ≡ crl_word fault }
    ensures len { length result.now ≤ 9 }
{
    match fault {
        CrlFault::Malformed => b"malformed",
        CrlFault::DeltaCrl => b"delta",
        CrlFault::Indirect => b"indirect",
        CrlFault::UnknownCritical => b"critical",
        CrlFault::NoMemory => b"",
    }
}

pub fn cert_text(fault: CertFault) -> &'static [u8]
    ensures value { result.now ≡ cert_word fault }
    ensures len { length result.now ≤ 9 }
{
    match fault {
        CertFault::Malformed => b"malformed",
        CertFault::NoScts => b"no-scts",
        CertFault::BadScts => b"scts",
        CertFault::TooManyScts => b"many",
    }
}

pub fn page_text(fault: PageFault) -> &'static [u8]
    ensures value { result.now ≡ page_word fault }
    ensures len { length result.now ≤ 6 }
{
    match fault {
        PageFault::Json => b"json",
        PageFault::Shape { .. } => b"shape",
        PageFault::Base64 { .. } => b"base64",
        PageFault::Size { .. } => b"size",
        PageFault::NoMemory => b"",
    }
}

pub fn what_text(what: What) -> &'static [u8]
    ensures value { result.now ≡ what_word what }
    ensures len { length result.now ≤ 10 }
{
    match what {
        What::Ranges => b"ranges",
        What::Crls => b"crls",
        What::Serials => b"serials",
        What::Entries => b"entries",
        What::Identities => b"identities",
        What::Issuers => b"issuers",
    }
}
