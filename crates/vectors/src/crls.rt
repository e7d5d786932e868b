//! CRLs.

use crl_core::{Crl, read_crl};
use std::alloc::Global;
use std::fmt::Write;
use std::test::Fail;

/// The dates and the serials of a CRL.
pub fn put_crl(alloc: Global, text: &mut String, crl: &Crl) -> Result<(), Fail> {
    let this = crl.this_update;
    write!(text, " this {this}")?;
    if let Some(next) = crl.next_update {
        write!(text, " next {next}")?;
    }
    for serial in &crl.serials {
        let digits = hex::encode(alloc, serial.bytes())?;
        write!(text, " {digits}")?;
    }
    Ok(())
}

/// What the CRL of these bytes says.
pub fn tell_crl(alloc: Global, bytes: &[u8]) -> Result<String, Fail> {
    let mut text = String::from_str(alloc, "crl")?;
    match read_crl(alloc, bytes) {
        Ok(crl) => put_crl(alloc, &mut text, &crl)?,
        Err(fault) => write!(text, " {fault:?}")?,
    }
    Ok(text)
}
