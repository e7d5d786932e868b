ghost use Rattle.std.specs.Prelude.{◌≡◌, ◌≤◌, ◌↔◌, length, IsOk, IfOk};
ghost use Rattle.ident_core.specs.declared.bounds.TheConstants.{MAX_SERIAL};
ghost use Rattle.ident_core.specs.Order.{identity_cmp, is_same as same};

use crate::bounds::MAX_SERIAL;
use octets_core::Key32;
use std::cmp::Ordering;
use std::marker::Model;

/// The contents octets of a certificate's serialNumber (RFC 5280, 4.1.2.2) as they stand, 1 to 32 of them: zero,
/// negative and non-minimal numbers too. Ordered by length, then by octets.
#[derive(Clone, Copy, Debug, PartialEq, Eq, PartialOrd, Ord, Hash)]
pub struct Serial {
    len: u8,
    octets: [u8; MAX_SERIAL],
}

impl Model for Serial {
    ghost use Rattle.std.specs.Prelude.{List, ℕ, take};

    ghost Value = { List ℕ };

    ghost use Rattle.ident_core.specs.SerialFields.{IsSerial, fields_of, fields_of-take};

    ghost view = { λ s. take s.len s.octets };

    ghost invariant = { λ s. IsSerial s.len s.octets };

    ghost inverse = { fields_of };

    ghost inverse_ok = { λ s h. fields_of-take s h };
}

/// The octets are no serial: there are none, or more than 32.
#[derive(Clone, Copy, Debug, PartialEq, Eq)]
pub struct BadSerial;

impl Serial {
    /// The serial of these octets.
    pub fn new(octets: &[u8]) -> Result<Serial, BadSerial>
        ensures fits { IsOk result ↔ ((1 ≤ length octets.now) × (length octets.now ≤ MAX_SERIAL)) }
        ensures value { IfOk result (λ serial. serial ≡ octets.now) }
    {
        let len = octets.len();
        if len == 0 || len > MAX_SERIAL {
            return Err(BadSerial);
        }
        let mut padded = [0u8; MAX_SERIAL];
        padded[..len].copy_from_slice(octets);
        Ok(Serial {
            len: len as u8,
            octets: padded,
        })
    }

    /// The octets.
    pub fn bytes(&self) -> &[u8]
        ensures value { result.now ≡ self.now }
        ensures some { 1 ≤ length self.now }
        ensures few { length self.now ≤ MAX_SERIAL }
    {
        &self.octets[..self.len as usize]
    }
}

/// What a certificate is known by. Ordered by the issuer's bytes, then by the serial.
#[derive(Clone, Copy, Debug, PartialEq, Eq, PartialOrd, Ord, Hash)]
pub struct Identity {
    /// The SHA-256 of the issuer's DER SubjectPublicKeyInfo.
    pub issuer: Key32,
    pub serial: Serial,
}

/// How `cmp` orders two identities.
pub fn compare(x: &Identity, y: &Identity) -> Ordering
    ensures { result ≡ identity_cmp x.now y.now }
{
    x.cmp(y)
}

/// Whether two identities are one.
pub fn is_same(x: &Identity, y: &Identity) -> bool
    ensures { result ≡ same x.now y.now }
{
    x.issuer == y.issuer && x.serial == y.serial
}
