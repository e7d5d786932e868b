ghost use Rattle.std.specs.Prelude.{◌≤◌, length, IfOk};

use outside_core::Failed;
use std::io::{Read, Seek, SeekFrom};

/// How many bytes are read ahead.
const ROOM: usize = 65536;

/// Bytes of a file from a place on, which were read ahead: a file that is read in small pieces takes few calls of the
/// system.
#[derive(Drop)]
pub(crate) struct Ahead {
    bytes: [u8; ROOM],
    at: u64,
    len: usize,
}

impl Ahead {
    /// Nothing is read ahead.
    pub(crate) fn new() -> Ahead {
        Ahead {
            bytes: [0; ROOM],
            at: 0,
            len: 0,
        }
    }

    /// Lets go of what was read ahead.
    pub(crate) fn forget(&mut self) {
        self.len = 0;
    }

    /// What was read ahead at this place and behind it.
    fn from(&self, at: u64) -> &[u8] {
        let Some(skipped) = at.checked_sub(self.at) else {
            return &[];
        };
        let held = self.bytes.get(..self.len).unwrap_or(&[]);
        let skipped = skipped.min(ROOM as u64) as usize;
        held.get(skipped..).unwrap_or(&[])
    }

    /// Reads from this place on, in one call of the system.
    fn fill<F: Read + Seek>(&mut self, file: &mut F, at: u64) -> Result<(), Failed> {
        self.forget();
        let read = read_from(file, at, &mut self.bytes)?;
        self.at = at;
        self.len = read;
        Ok(())
    }
}

/// Copies as many bytes as there are, and as there is room for.
fn copied(from: &[u8], buf: &mut [u8]) -> usize
    ensures { result ≤ length buf.old }
{
    let len = from.len().min(buf.len());
    buf[..len].copy_from_slice(&from[..len]);
    len
}

pub(crate) fn read_from<F: Read + Seek>(
    file: &mut F,
    at: u64,
    buf: &mut [u8],
) -> Result<usize, Failed>
    ensures { IfOk result (λ n. n ≤ length buf.old) }
{
    let Ok(_) = file.seek(SeekFrom::Start(at)) else {
        return Err(Failed);
    };
    match file.read(buf) {
        Ok(n) => Ok(n),
        Err(_) => Err(Failed),
    }
}

/// The same, out of what was read ahead where that holds the place.
pub(crate) fn read_through<F: Read + Seek>(
    ahead: &mut Ahead,
    file: &mut F,
    at: u64,
    buf: &mut [u8],
) -> Result<usize, Failed>
    ensures { IfOk result (λ n. n ≤ length buf.old) }
{
    if ahead.from(at).is_empty() {
        ahead.fill(file, at)?;
    }
    Ok(copied(ahead.from(at), buf))
}
