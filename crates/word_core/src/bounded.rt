//! Counts and lists that words spell, with the bounds that they keep.

use ident_core::{MAX_SAMPLE, MAX_WORKERS};
use slot_core::MAX_CAPACITY;
use std::marker::Model;

/// A count of 1 to `MAX`.
#[derive(Debug, Drop)]
pub struct Count<const MAX: usize> {
    number: u32,
}

impl<const MAX: usize> Model for Count<MAX> {
    ghost use Rattle.std.specs.Prelude.{ℕ, ◌≤◌};

    ghost Value = { ℕ };

    ghost view = { λ c. c.number };

    ghost invariant = { λ c. (1 ≤ c.number) × (c.number ≤ MAX) };
}

impl<const MAX: usize> Count<MAX> {
    ghost use Rattle.std.specs.Prelude.{◌≡◌, ◌≤◌};

    /// So many.
    pub fn new(number: u32) -> Count<MAX>
        requires { (1 ≤ number) × (number ≤ MAX) }
        ensures { result ≡ number }
    {
        Count { number }
    }

    /// How many.
    pub fn get(&self) -> u32
        ensures value { result ≡ self.now }
        ensures bounds { (1 ≤ result) × (result ≤ MAX) }
    {
        self.number
    }
}

/// How many workers build a part.
pub type Workers = Count<MAX_WORKERS>;

/// How many entries a sample has.
pub type SampleCount = Count<MAX_SAMPLE>;

/// The most bytes that a slot of a device holds, 1 to `MAX_CAPACITY`.
#[derive(Debug, Drop)]
pub struct Capacity {
    bytes: u64,
}

impl Model for Capacity {
    ghost use Rattle.std.specs.Prelude.{ℕ, ◌≤◌};
    ghost use Rattle.slot_core.specs.declared.device.TheConstants.{MAX_CAPACITY};

    ghost Value = { ℕ };

    ghost view = { λ c. c.bytes };

    ghost invariant = { λ c. (1 ≤ c.bytes) × (c.bytes ≤ MAX_CAPACITY) };
}

impl Capacity {
    ghost use Rattle.std.specs.Prelude.{◌≡◌, ◌≤◌};
    ghost use Rattle.slot_core.specs.declared.device.TheConstants.{MAX_CAPACITY};

    /// So many bytes.
    pub(crate) fn new(bytes: u64) -> Capacity
        requires { (1 ≤ bytes) × (bytes ≤ MAX_CAPACITY) }
        ensures { result ≡ bytes }
    {
        Capacity { bytes }
    }

    /// How many bytes.
    pub fn get(&self) -> u64
        ensures value { result ≡ self.now }
        ensures bounds { (1 ≤ result) × (result ≤ MAX_CAPACITY) }
    {
        self.bytes
    }
}

/// `MIN` to `MAX` items, in the order of the words.
#[derive(Debug, Drop)]
pub struct Listed<T, const MIN: usize, const MAX: usize> {
    items: Vec<T>,
}

impl<T, const MIN: usize, const MAX: usize> Model for Listed<T, MIN, MAX> {
    ghost use Rattle.std.specs.Prelude.{List, ◌≤◌, length};

    ghost Value = { List T };

    ghost view = { λ l. l.items.items };

    ghost invariant = { λ l. (MIN ≤ length l.items.items) × (length l.items.items ≤ MAX) };
}

impl<T, const MIN: usize, const MAX: usize> Listed<T, MIN, MAX> {
    ghost use Rattle.std.specs.Prelude.{◌≡◌, ◌≤◌, length};

    /// The list of these items.
    pub fn new(items: Vec<T>) -> Listed<T, MIN, MAX>
        requires { (MIN ≤ length items.items) × (length items.items ≤ MAX) }
        ensures { result ≡ items.items }
    {
        Listed { items }
    }

    /// The items.
    pub fn as_slice(&self) -> &[T]
        ensures value { result.now ≡ self.now }
        ensures bounds { (MIN ≤ length result.now) × (length result.now ≤ MAX) }
    {
        self.items.as_slice()
    }
}
