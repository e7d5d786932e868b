//! Programs to be timed from outside. The first word chooses: `benches ribbon KEYS PLANES ROUNDS` builds and solves
//! ribbon systems of pseudo-random rows, `benches parity KEYS PLANES ROUNDS` asks for sums of one,
//! `benches part WHAT FILE ROUNDS` reads the part of a file, `benches digest FILE` prints the SHA-256 of a file, and
//! `benches building SHARING FORMAT WORKERS ROUNDS LARGE MANY SMALL` builds the part of one group of LARGE identities
//! and MANY groups of SMALL. SHARING is `cut` (`build_part`) or `claimed` (`build_part_claimed`), and FORMAT is `plain`
//! or `sharded`.
#![tactic(auto)]

mod building;
mod digest;
mod job;
mod parts;
mod ribbon;

use std::alloc::Global;
use std::env::Args;
use std::iter::Skip;
use std::{env, io};

// The numbers that words spell, 0 in place of others.
fn numbers<const N: usize>(words: Skip<Args<Global>>) -> [u32; N] {
    let mut numbers = [0; N];
    for (place, word) in words.take(N).enumerate() {
        numbers[place] = word.parse::<u32>().unwrap_or(0);
    }
    numbers
}

fn main(rt: HostRuntime) -> io::Result<()> {
    let mut words = env::args(&rt)?.skip(1);
    match words.next().as_deref() {
        Some("digest") => match words.next() {
            Some(name) => digest::run(&rt, &name),
            None => Ok(()),
        },
        Some("part") => {
            let what = words.next();
            let name = words.next();
            let [rounds] = numbers::<1>(words);
            match (what.as_deref(), name.as_deref()) {
                (Some(what), Some(name)) => parts::run(&rt, what, name, rounds),
                _ => Ok(()),
            }
        }
        Some("building") => {
            let claimed = words.next().as_deref() == Some("claimed");
            let sharded = words.next().as_deref() == Some("sharded");
            building::run(&rt, rt.alloc(), claimed, sharded, numbers(words))
        }
        Some("ribbon") => ribbon::run(&rt, numbers(words)),
        Some("parity") => ribbon::ask(&rt, numbers(words)),
        _ => Ok(()),
    }
}
