//! Ribbon systems of pseudo-random rows.

ghost use Rattle.std.specs.Prelude.{◌≡◌, ◌<◌, ◌≤◌, ◌%◌};
ghost use Rattle.ident_core.specs.declared.bounds.TheConstants.{MAX_IDENTITIES};
ghost use Rattle.equation_core.specs.declared.hash.TheConstants.{MAX_PLANES};

use equation_core::{MAX_PLANES, Row, starts_for};
use ident_core::MAX_IDENTITIES;
use octets_core::{NoMemory, Steps};
use ribbon_core::{Planes, System};
use std::alloc::Global;
use std::io;
use std::marker::Brand;
use std::sync::ledger::{Blank, Ledger};

// The generator splitmix64 (Steele, Lea and Flood 2014).
#[derive(Drop)]
struct Random {
    state: u64,
}

impl Random {
    fn next(&mut self) -> u64 {
        self.state = self.state.wrapping_add(0x9e37_79b9_7f4a_7c15);
        let mut z = self.state;
        z = (z ^ (z >> 30)).wrapping_mul(0xbf58_476d_1ce4_e5b9);
        z = (z ^ (z >> 27)).wrapping_mul(0x94d0_49bb_1331_11eb);
        z ^ (z >> 31)
    }

    fn row(&mut self, starts: u32) -> Row
        requires { 1 ≤ starts }
        ensures start { result.start < starts }
        ensures odd { result.coeff % 2 ≡ 1 }
    {
        let coeff = (u128::from(self.next()) << 64 | u128::from(self.next())) | 1;
        let place = self.next();
        Row {
            start: ((u128::from(place) * u128::from(starts)) >> 64) as u32,
            coeff,
            tag: (place & 0xffff) as u16,
        }
    }
}

// The least solution of as many random equations, and how many of them were kept.
fn build(
    alloc: Global,
    keys: u32,
    planes: u8,
    random: &mut Random,
) -> Result<(u32, Planes), NoMemory>
    requires keys { keys ≤ MAX_IDENTITIES }
    requires some_planes { 1 ≤ planes }
    requires few_planes { planes ≤ MAX_PLANES }
{
    let starts = starts_for(keys);
    let mut system = System::new(alloc, starts, planes)?;
    let mut kept = 0;
    for done in 0..keys {
        let row = random.row(starts);
        let target = row.tag >> (MAX_PLANES - planes);
        if system.add(&row, target).is_ok() {
            kept += 1;
        }
    }
    Ok((kept, system.solve()))
}

/// Solves systems of so many equations in so many planes, so many times over, and prints of each how many equations
/// were kept and its starts, which depend on the numbers alone.
pub(crate) fn run(rt: &HostRuntime, numbers: [u32; 3]) -> io::Result<()> {
    let [keys, planes, rounds] = numbers;
    if keys > MAX_IDENTITIES as u32 || planes < 1 || planes > u32::from(MAX_PLANES) {
        return Ok(());
    }
    let mut random = Random { state: 7 };
    for _ in 0..rounds {
        match build(rt.alloc(), keys, planes as u8, &mut random) {
            Ok((kept, solution)) => println!(rt; "{kept} {}", solution.starts())?,
            Err(NoMemory) => println!(rt; "no memory")?,
        }
    }
    Ok(())
}

// Of as many random rows, how many have the targets as their sums.
fn accepted<L: Ledger>(
    planes: &Planes,
    keys: u32,
    random: &mut Random,
    steps: &mut Steps<L>,
) -> u32 {
    let starts = planes.starts();
    let unused = MAX_PLANES - planes.planes();
    let mut accepted = 0;
    for done in 0..keys {
        let row = random.row(starts);
        if planes.parity(&row, steps) == row.tag >> unused {
            accepted += 1;
        }
    }
    accepted
}

fn ask_rounds<L: Ledger>(
    rt: &HostRuntime,
    planes: &Planes,
    keys: u32,
    rounds: u32,
    blank: Blank,
) -> io::Result<()>
    requires name { blank.name ≡ L.name }
    requires parts { blank.parts ≡ L.parts }
    requires some { 0 < L.parts }
{
    let mut steps: Steps<L> = Steps::new(blank);
    let mut others = Random { state: 8 };
    for _ in 0..rounds {
        let mut same = Random { state: 7 };
        let present = accepted(planes, keys, &mut same, &mut steps);
        let absent = accepted(planes, keys, &mut others, &mut steps);
        println!(rt; "{present} {absent}")?;
    }
    Ok(())
}

/// Solves a system of so many equations in so many planes. Then it asks, so many times over, for the sums of their rows
/// and of as many others, and prints how many of these have the targets as their sums.
pub(crate) fn ask(rt: &HostRuntime, numbers: [u32; 3]) -> io::Result<()> {
    let [keys, planes, rounds] = numbers;
    if keys > MAX_IDENTITIES as u32 || planes < 1 || planes > u32::from(MAX_PLANES) {
        return Ok(());
    }
    let mut random = Random { state: 7 };
    match build(rt.alloc(), keys, planes as u8, &mut random) {
        Ok((_, solution)) => ask_rounds::<Brand>(rt, &solution, keys, rounds, Blank::new(1)),
        Err(NoMemory) => println!(rt; "no memory"),
    }
}
