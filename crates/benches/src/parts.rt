//! A part read ROUNDS times over: hashed, scanned in pieces, or decoded.

use part_codec::{PartScan, decode_part};
use sha2::{Digest, Sha256};
use std::{fs, io};

/// The bytes of a piece, as a file's are read.
const PIECE: usize = 4096;

fn hash(bytes: &[u8]) -> u64 {
    let mut hasher = Sha256::new();
    for piece in bytes.chunks(PIECE) {
        hasher.update(piece);
    }
    u64::from(hasher.finalize()[0])
}

fn scan(bytes: &[u8]) -> u64 {
    let mut scan = PartScan::new();
    for piece in bytes.chunks(PIECE) {
        if scan.feed(piece).is_err() {
            return 0;
        }
    }
    match scan.finish() {
        Ok(note) => note.length,
        Err(_) => 0,
    }
}

/// Does it, and prints the last answer: the first byte of the digest, or how many bytes the part has.
pub(crate) fn run(rt: &HostRuntime, what: &str, name: &str, rounds: u32) -> io::Result<()> {
    let bytes = fs::read(rt, name)?;
    let mut answer = 0;
    for _ in 0..rounds {
        answer = match what {
            "hash" => hash(&bytes),
            "scan" => scan(&bytes),
            _ => match decode_part(rt.alloc(), &bytes) {
                Ok((_, len)) => len as u64,
                Err(_) => 0,
            },
        };
    }
    println!(rt; "{answer}")
}
