//! The program: runs its words over the real files and the terminal, and ends with the status of `run`, or of
//! `run_device`.
#![tactic(auto)]

ghost use Rattle.std.specs.Prelude.{◌≡◌, ◌≢◌, IfErr, map, string_bytes};
ghost use Rattle.std.specs.Option.{option_map};
ghost use Rattle.std.specs.Process.{exit_status};
ghost use Rattle.line_core.specs.Statuses as statuses;
ghost use Rattle.clubcard.specs.Routing.{IsOfWords, device_named};

use clubcard_top::{Status, run};
use device_top::run_device;
use real_edge::{FileDepot, FileDisk, Terminal};
use std::env;
use std::io::ErrorKind;
use std::process::ExitCode;

/// How the program ends where its words aren't had: for want of memory, or as words that are no command.
fn status_of(kind: ErrorKind) -> Status
    ensures memory { kind ≡ ErrorKind.OutOfMemory → result.0 ≡ statuses.no_memory }
    ensures other { kind ≢ ErrorKind.OutOfMemory → result.0 ≡ statuses.usage }
    ensures one { IsOfWords result.0 }
{
    match kind {
        ErrorKind::OutOfMemory => Status::NO_MEMORY,
        _ => Status::USAGE,
    }
}

/// The words after the program's name. A word that isn't UTF-8 makes it end as words that are no command do, with no
/// line.
fn words(rt: &HostRuntime) -> Result<Vec<String>, Status>
    ensures { IfErr result (λ status. IsOfWords status.0) }
{
    let args = match env::args(rt) {
        Ok(args) => args,
        Err(e) => return Err(status_of(e.kind())),
    };
    let mut words = Vec::new(rt.alloc());
    for word in args.skip(1) {
        let Ok(()) = words.push(word) else {
            return Err(Status::NO_MEMORY);
        };
    }
    Ok(words)
}

/// The device that the words name: the second of them, where the first begins with `device-`.
fn device_named(words: &[String]) -> Option<&str>
    ensures { option_map (λ name. name.now) result ≡ device_named (map string_bytes words.now) }
{
    match words {
        [command, device, ..] if command.as_bytes().starts_with(b"device-") => {
            Some(device.as_str())
        }
        _ => None,
    }
}

/// The exit status of the process.
fn exit_of(status: Status) -> ExitCode
    ensures { exit_status result ≡ status.0 }
{
    ExitCode::from(status.0)
}

fn main(rt: HostRuntime) -> ExitCode {
    let words = match words(&rt) {
        Ok(words) => words,
        Err(status) => return exit_of(status),
    };
    let mut depot = FileDepot::new(&rt);
    let mut out = Terminal::new(&rt);
    let status = match device_named(&words) {
        Some(device) => {
            let mut disk = FileDisk::new(&rt, device);
            run_device(&rt, rt.alloc(), &words, &mut disk, &mut depot, &mut out)
        }
        None => run(&rt, rt.alloc(), &words, &mut depot, &mut out),
    };
    exit_of(status)
}
