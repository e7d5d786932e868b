//! Plays vectors: each word names a file of calls, and a transcript of each is printed. What the calls give is told,
//! and nothing is judged.
#![tactic(auto)]

mod calls;
mod classes;
mod crls;
mod der;
mod entries;
mod feeds;
mod filters;
mod jobs;
mod parts;
mod places;
mod reading;
mod rows;
mod sets;
mod stages;
mod stores;
mod systems;
mod words;

use calls::Calls;
use play_core::transcript_of;
use std::test::Fail;
use std::{env, fs};

fn main(rt: HostRuntime) -> Result<(), Fail> {
    for name in env::args(&rt)?.skip(1) {
        let text = fs::read_to_string(&rt, name.as_str())?;
        rt.print(transcript_of(&rt, &Calls, rt.alloc(), text.as_str())?)?;
    }
    Ok(())
}
