//! What commands are, and what comes of one.

use crate::files::Files;
use sha2::{Digest, Sha256};
use std::alloc::Global;
use std::fmt::Write;
use std::test::Fail;
use std::thread::Threads;

/// Which calls of the outside fail, by their numbers from 0, and how many bytes a read gives at most.
#[derive(Clone, Copy)]
pub struct Faults {
    /// The read of this number.
    pub read: u64,
    /// The write of a file of this number.
    pub write: u64,
    /// The write of lines of this number.
    pub print: u64,
    /// The call of the disk of this number, and each later one.
    pub disk: u64,
    pub most: usize,
}

/// No call fails, and a read gives all that there is room for.
pub const NONE: Faults = Faults {
    read: u64::MAX,
    write: u64::MAX,
    print: u64::MAX,
    disk: u64::MAX,
    most: usize::MAX,
};

/// What came of a command: what is told of it, the files that it changed, and how many calls of the outside it made.
#[derive(Drop)]
pub struct Ending {
    pub text: String,
    pub changed: Files,
    pub reads: u64,
    pub writes: u64,
    pub prints: u64,
    pub disk_calls: u64,
}

/// What runs the commands of a scenario.
pub trait Commands {
    /// What its threads may share.
    ghost shared: { Self → Type 0 };

    /// Runs the words over the files, which stay, with these faults.
    fn call<R: Threads + Sync>(
        &self,
        rt: &R,
        alloc: Global,
        files: &Files,
        words: &[String],
        faults: Faults,
    ) -> Result<Ending, Fail>
        requires { shared self.now };
}

/// The line of a file that changed.
fn put_change(alloc: Global, text: &mut String, name: &str, bytes: &[u8]) -> Result<(), Fail> {
    let len = bytes.len();
    if bytes.is_empty() {
        write!(text, "{name}: empty\n")?;
    } else if len <= 32 {
        let digits = hex::encode(alloc, bytes)?;
        write!(text, "{name}: {len} bytes {digits}\n")?;
    } else {
        let digits = hex::encode(alloc, Sha256::digest(bytes))?;
        write!(text, "{name}: {len} bytes, SHA-256 {digits}\n")?;
    }
    Ok(())
}

/// The most bytes of lines that are told as they stand.
const MOST: usize = 4000;

/// What is told of a program's run: the lines that it printed, its status, and a line for each file that it changed.
/// Behind a line without an end stands a `\`, and of many lines their length and their digest are told.
pub fn told(alloc: Global, lines: &[u8], status: u8, changed: &Files) -> Result<String, Fail> {
    let mut text = String::new(alloc);
    if lines.len() > MOST {
        put_change(alloc, &mut text, "lines", lines)?;
    } else {
        text.push_str(str::from_utf8(lines)?)?;
        if !lines.is_empty() && !lines.ends_with(b"\n") {
            text.push_str("\\\n")?;
        }
    }
    write!(text, "status {status}\n")?;
    for (name, bytes) in changed.iter() {
        put_change(alloc, &mut text, name.as_str(), bytes)?;
    }
    Ok(text)
}
