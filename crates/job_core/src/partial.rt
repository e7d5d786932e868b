//! What is held of a job's records from one to the next.

ghost use Rattle.std.specs.Prelude.{◌≡◌, ◌+◌, ◌^◌, ◌<◌, nat_le};
ghost use Rattle.job_core.specs.JobLayout.{nothing_held};
ghost use Rattle.job_core.specs.Partial.{held_in};

use octets_core::Key32;

/// What is held of the records so far.
#[derive(Clone, Copy)]
pub struct Numbers {
    /// Of the last record.
    pub kind: u8,
    /// Of the last range.
    pub log: Option<Key32>,
    pub ranges: u32,
    pub crls: u32,
    pub entries: u32,
}

/// Before the first record.
pub fn no_numbers() -> Numbers
    ensures { held_in result ≡ nothing_held }
{
    Numbers {
        kind: 0,
        log: None,
        ranges: 0,
        crls: 0,
        entries: 0,
    }
}

/// Whether there may be one more.
pub fn is_room(limit: u32, count: u32) -> bool
    ensures { result ≡ nat_le (count + 1) limit }
{
    count < limit
}

fn count_facts(count: u32)
    ensures { count < 2 ^ 32 }
{}

/// What the types of the counts say of them.
pub fn numbers_facts(numbers: &Numbers)
    ensures { (numbers.now.ranges < 2 ^ 32) × (numbers.now.crls < 2 ^ 32) × (numbers.now.entries < 2 ^ 32) }
{
    count_facts(numbers.ranges);
    count_facts(numbers.crls);
    count_facts(numbers.entries);
}
