ghost use Rattle.std.specs.Prelude.{◌≡◌, ℕ, ◌<◌, ◌≤◌, ◌+◌, ◌-◌, ◌^◌, length, take, IfOk, OnOk, OnErr};
ghost use Rattle.std.specs.Int.{w8, w16, w32, w64, from_be_bytes};
ghost use Rattle.octets_core.specs.Position.{start_of, advanced, piece, from_three, TakesNumber};

use std::marker::Model;

/// Fewer bytes are left than were asked for.
#[derive(Clone, Copy, Debug, PartialEq, Eq)]
pub struct Short;

/// A place in a list of bytes. A call that answers `Short` passes nothing.
#[derive(Debug, Drop)]
pub struct Cursor<'a> {
    bytes: &'a [u8],
    at: usize,
}

impl<'a> Model for Cursor<'a> {
    ghost use Rattle.std.specs.Prelude.{◌≤◌, length};
    ghost use Rattle.octets_core.specs.Position.{Position};

    ghost Value = { Position };

    ghost view = { λ c. record { bytes = c.bytes.now; at = c.at } };

    ghost invariant = { λ c. c.at ≤ length c.bytes.now };
}

impl<'a> Cursor<'a> {
    /// At the first of the bytes.
    pub fn new(bytes: &'a [u8]) -> Cursor<'a>
        ensures { result ≡ start_of bytes.now }
    {
        Cursor { bytes, at: 0 }
    }

    /// How many bytes were passed.
    pub fn at(&self) -> usize
        ensures value { result ≡ self.now.at }
        ensures within { self.now.at ≤ length self.now.bytes }
    {
        self.at
    }

    /// How many bytes are left.
    pub fn left(&self) -> usize
        ensures { result + self.now.at ≡ length self.now.bytes }
    {
        self.bytes.len() - self.at
    }

    /// The bytes that were passed.
    pub fn passed(&self) -> &'a [u8]
        ensures { result.now ≡ take self.now.at self.now.bytes }
    {
        &self.bytes[..self.at]
    }

    /// The next `n` bytes.
    pub fn take(&mut self, n: usize) -> Result<&'a [u8], Short>
        ensures short { OnErr result (length self.old.bytes < self.old.at + n) }
        ensures room { OnOk result (self.old.at + n ≤ length self.old.bytes) }
        ensures taken { IfOk result (λ bytes. bytes.now ≡ piece n self.old.bytes self.old.at) }
        ensures len { IfOk result (λ bytes. length bytes.now ≡ n) }
        ensures ok { OnOk result (self.new ≡ advanced n self.old) }
        ensures err { OnErr result (self.new ≡ self.old) }
    {
        if self.bytes.len() - self.at < n {
            return Err(Short);
        }
        let taken = &self.bytes[self.at..self.at + n];
        self.at += n;
        Ok(taken)
    }

    /// The next number of one byte.
    pub fn u8(&mut self) -> Result<u8, Short>
        ensures { TakesNumber 1 (from_be_bytes w8) self.old self.new result }
    {
        let b = self.take(1)?;
        Ok(u8::from_be_bytes([b[0]]))
    }

    /// The next number of two bytes, greatest byte first.
    pub fn u16(&mut self) -> Result<u16, Short>
        ensures { TakesNumber 2 (from_be_bytes w16) self.old self.new result }
    {
        let b = self.take(2)?;
        Ok(u16::from_be_bytes([b[0], b[1]]))
    }

    /// The next number of three bytes, greatest byte first.
    pub fn u24(&mut self) -> Result<u32, Short>
        ensures number { TakesNumber 3 from_three self.old self.new result }
        ensures bound { IfOk result (λ n. n < 2 ^ 24) }
    {
        let b = self.take(3)?;
        Ok(u32::from_be_bytes([0, b[0], b[1], b[2]]))
    }

    /// The next number of four bytes, greatest byte first.
    pub fn u32(&mut self) -> Result<u32, Short>
        ensures { TakesNumber 4 (from_be_bytes w32) self.old self.new result }
    {
        let b = self.take(4)?;
        Ok(u32::from_be_bytes([b[0], b[1], b[2], b[3]]))
    }

    /// The next number of eight bytes, greatest byte first.
    pub fn u64(&mut self) -> Result<u64, Short>
        ensures { TakesNumber 8 (from_be_bytes w64) self.old self.new result }
    {
        let b = self.take(8)?;
        Ok(u64::from_be_bytes([b[0], b[1], b[2], b[3], b[4], b[5], b[6], b[7]]))
    }
}
