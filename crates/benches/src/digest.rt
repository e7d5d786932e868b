//! The SHA-256 of a file.

use sha2::{Digest, Sha256};
use std::alloc::Global;
use std::test::Fail;
use std::{fs, io};

fn hexadecimal_digest(alloc: Global, bytes: &[u8]) -> io::Result<String> {
    Ok(hex::encode(alloc, Sha256::digest(bytes))?)
}

/// Prints the digest of the file in hexadecimal.
pub(crate) fn run(rt: &HostRuntime, name: &str) -> io::Result<()> {
    let bytes = fs::read(rt, name)?;
    println!(rt; "{}", hexadecimal_digest(rt.alloc(), &bytes)?)
}

// The first example of FIPS 180-4.
#[test]
fn digest_of_abc(rt: HostRuntime) -> Result<(), Fail> {
    let digest = hexadecimal_digest(rt.alloc(), b"abc")?;
    let want = "ba7816bf8f01cfea414140de5dae2223b00361a396177a9cb410ff61f20015ad";
    assert_eq!(rt; digest.as_str(), want);
    Ok(())
}
