//! The certificates that commands read. A file that is longer than a certificate may be isn't read to its end.

ghost use Rattle.std.specs.Prelude.{◌≡◌};
ghost use Rattle.outside_core.specs.Effects.{OnlyReads};
ghost use Rattle.input_core.specs.Certificates.{certificate_of as certificate_by, issuer_of as issuer_by};
ghost use Rattle.input_core.specs.Certificates.{certificate_in as certificate_of_file, issuer_in as issuer_of_file};
ghost use Rattle.outside_core.specs.Reads.{WhichFailed};
ghost use Rattle.input_core.specs.Inputs.{IsInput};

use crate::fault::FileFault;
use crate::input::read_up_to;
use ident_core::Serial;
use log_core::issuer_hash;
use octets_core::Key32;
use outside_core::Depot;
use sct_core::bounds::MAX_CERTIFICATE;
use sct_core::{CertFault, Scts, cert_serial, scts};
use std::alloc::Global;

/// What is read of the certificate that is asked about: its serial, and when logs saw it.
#[derive(Debug, Drop)]
pub struct Certificate {
    pub serial: Serial,
    pub scts: Scts,
}

/// The certificate of these bytes.
fn certificate_of(bytes: &[u8]) -> Result<Certificate, CertFault>
    ensures { result ≡ certificate_by bytes.now }
{
    let serial = cert_serial(bytes)?;
    let scts = scts(bytes)?;
    Ok(Certificate { serial, scts })
}

/// The hash of the key of the certificate of these bytes.
fn issuer_of(bytes: &[u8]) -> Result<Key32, CertFault>
    ensures { result ≡ issuer_by bytes.now }
{
    if bytes.len() > MAX_CERTIFICATE {
        return Err(CertFault::Malformed);
    }
    issuer_hash(bytes).or(Err(CertFault::Malformed))
}

/// The certificate of the file of this name.
pub fn certificate_in<D: Depot>(
    alloc: Global,
    depot: &mut D,
    name: &str,
) -> Result<Certificate, FileFault>
    ensures input { IsInput (D.files depot.old) (WhichFailed D.Depot depot.old depot.new) name.now
        certificate_of_file (λ c. c) result }
    ensures only_reads { OnlyReads D.Depot depot.old depot.new }
{
    let bytes = read_up_to(alloc, depot, name, MAX_CERTIFICATE)?;
    Ok(certificate_of(&bytes)?)
}

/// The hash of the key of the certificate of the file of this name, which is an issuer's.
pub fn issuer_in<D: Depot>(alloc: Global, depot: &mut D, name: &str) -> Result<Key32, FileFault>
    ensures input { IsInput (D.files depot.old) (WhichFailed D.Depot depot.old depot.new) name.now
        issuer_of_file (λ k. k) result }
    ensures only_reads { OnlyReads D.Depot depot.old depot.new }
{
    let bytes = read_up_to(alloc, depot, name, MAX_CERTIFICATE)?;
    Ok(issuer_of(&bytes)?)
}
