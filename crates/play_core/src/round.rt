//! Lines that stand once and are played several times, with another number each time.

use std::alloc::{AllocError, Global};
use std::test::Fail;

/// The lines between `for` and `done`, and the first and the last number that they are played with.
#[derive(Drop)]
struct Round {
    first: u64,
    last: u64,
    lines: String,
}

/// The round that a line begins, or none.
fn round_of(alloc: Global, line: &str) -> Result<Option<Round>, Fail> {
    let words: Vec<&str> = line.split_whitespace().collect(alloc)?;
    match words.as_slice() {
        ["for", "N", first, "to", last] => Ok(Some(Round {
            first: first.parse::<u64>()?,
            last: last.parse::<u64>()?,
            lines: String::new(alloc),
        })),
        _ => Ok(None),
    }
}

/// Puts the lines of a round once for each of its numbers, which stands in place of `{N}`; those before and behind it
/// stand in place of `{N-1}` and `{N+1}`.
fn put_round(alloc: Global, all: &mut String, round: &Round) -> Result<(), AllocError> {
    for number in round.first..=round.last {
        let before = format!(in alloc; "{}", number.saturating_sub(1))?;
        let behind = format!(in alloc; "{}", number.saturating_add(1))?;
        let number = format!(in alloc; "{number}")?;
        let lines = round.lines.replace(alloc, "{N}", number.as_str())?;
        let lines = lines.replace(alloc, "{N-1}", before.as_str())?;
        all.push_str(lines.replace(alloc, "{N+1}", behind.as_str())?.as_str())?;
    }
    Ok(())
}

fn put_line(all: &mut String, line: &str) -> Result<(), AllocError> {
    all.push_str(line)?;
    all.push_str("\n")
}

/// The lines of a file of scenarios, with those of each round as often as they are played.
pub(crate) fn unrolled(alloc: Global, text: &str) -> Result<String, Fail> {
    let mut all = String::new(alloc);
    let mut open = None;
    for line in text.lines() {
        open = match open {
            Some(round) if line.trim() == "done" => {
                put_round(alloc, &mut all, &round)?;
                None
            }
            Some(mut round) => {
                put_line(&mut round.lines, line)?;
                Some(round)
            }
            None => {
                let begun = round_of(alloc, line)?;
                if begun.is_none() {
                    put_line(&mut all, line)?;
                }
                begun
            }
        };
    }
    match open {
        Some(_) => Err(Fail::new("`for` without `done`")),
        None => Ok(all),
    }
}
