//! Plays scenarios of the program: each word names a file of them, and a transcript of each is printed. What the
//! commands do is told, and nothing is judged.
#![tactic(auto)]

mod edge;
mod program;

use play_core::transcript_of;
use program::Program;
use std::test::Fail;
use std::{env, fs};

fn main(rt: HostRuntime) -> Result<(), Fail> {
    let program = Program::new(&rt);
    for name in env::args(&rt)?.skip(1) {
        let text = fs::read_to_string(&rt, name.as_str())?;
        rt.print(transcript_of(&rt, &program, rt.alloc(), text.as_str())?)?;
    }
    Ok(())
}
