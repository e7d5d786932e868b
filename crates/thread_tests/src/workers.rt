//! How the word WORKERS reaches the builder, and that it changes no byte of a part or a ledger.

use crate::gates::{FEW, Holds, MANY, PAIRS};
use clubcard_top::{Gate, Open, Status, run_gated};
use outside_core::{Depot, MemoryDepot, MemorySink};
use real_edge::FileDepot;
use std::fs;
use std::process::Abort;
use std::test::Fail;
use std::thread::Threads;

/// Runs the words behind a gate. It keeps no promise of `run_gated`, so that no proof of a test begins with them.
fn ended_by<R: Threads + AllocGlobal + Sync, D: Depot, G: Gate + Sync>(
    rt: &R,
    words: &[String],
    depot: &mut D,
    out: &mut MemorySink,
    gate: &G,
) -> Status {
    run_gated(rt, rt.alloc(), words, depot, out, gate)
}

/// Whether the words are done, and print this line.
fn prints<R: Threads + AllocGlobal + Sync, D: Depot, G: Gate + Sync>(
    rt: &R,
    depot: &mut D,
    gate: &G,
    words: &str,
    line: &str,
) -> Result<bool, Fail> {
    let mut list = Vec::new(rt.alloc());
    for word in words.split_whitespace() {
        list.push(String::from_str(rt.alloc(), word)?)?;
    }
    let mut out = MemorySink::new(rt.alloc());
    let ended = ended_by(rt, &list, depot, &mut out, gate);
    Ok(ended == Status::DONE && out.bytes() == line.as_bytes())
}

const SAMPLED: &str = "sample 7 entries 40 revoked 4 bytes 4894\n";

const FIRST: &str =
    "epoch 1 part 0 issuers 4 universe 40 revoked 4 unread 0 uncovered 0 unenrolled 0 late 0 accepted 40\n";

const SECOND: &str =
    "epoch 2 part 1 issuers 4 universe 40 revoked 0 unread 0 uncovered 0 unenrolled 0 late 0 accepted 40\n";

const BOTH: &str = "\
    epoch 1 part 0 issuers 4 universe 40 revoked 4 unread 0 uncovered 0 unenrolled 0 late 0 accepted 40\n\
    epoch 2 part 1 issuers 4 universe 40 revoked 0 unread 0 uncovered 0 unenrolled 0 late 0 accepted 40\n";

const REBASED: &str = "rebase epoch 2 issuers 4 universe 40 revoked 4 pruned 0\n";

const WITHOUT: &str = "rebase-without epoch 2 issuers 4 universe 40 revoked 4 pruned 0 left 0\n";

const SPLIT: &str = "split 0 of 1 epoch 2 issuers 4 universe 40 revoked 4 pruned 0 left 0\n";

// Each command that builds parts, with W for the workers, of a job of four issuers and of the same job in the next epoch;
// how many places are kept, two of each part; and what it prints. The issuer that is left out is none of the four.
const COMMANDS: [(&str, u32, &str); 6] = [
    ("snapshot J P L W", 2, FIRST),
    ("delta K L D M W", 2, SECOND),
    ("rebase M 0 B N W", 2, REBASED),
    (
        "rebase-without M 0 B N W 0000000000000000000000000000000000000000000000000000000000000000",
        2,
        WITHOUT,
    ),
    ("split M 0 issuer 1 0 B N W", 2, SPLIT),
    ("rehearse Q W J K", 4, BOTH),
];

/// A sample's job under J, the same in the next epoch under K, and no query under Q.
fn jobs<R: Threads + AllocGlobal + Abort + Sync>(rt: &R) -> Result<MemoryDepot, Fail> {
    let mut depot = MemoryDepot::new(rt.alloc());
    assert!(rt; prints(rt, &mut depot, &Open, "sample 7 40 J", SAMPLED)?);
    let mut next = Vec::new(rt.alloc());
    next.extend_from_slice(depot.bytes_of("J").unwrap_or(&[]))?;
    if let Some(epoch) = next.get_mut(15) {
        *epoch = 2;
    }
    depot.put("K", &next)?;
    depot.put("Q", b"CLUBQRY1\0\0\0\0")?;
    Ok(depot)
}

// Whichever two issuers are kept, the third worker enters the others: fewer would wait at a kept place to the end of the
// turns.
#[test]
fn three_workers_enter_side_by_side(rt: HostRuntime) -> Result<(), Fail> {
    let mut depot = jobs(&rt)?;
    for kept in PAIRS {
        for (words, passed, lines) in COMMANDS {
            let gate = Holds::new(kept, 4, MANY);
            let words = words.replace(rt.alloc(), "W", "3")?;
            assert!(&rt; prints(&rt, &mut depot, &gate, &words, lines)?, "{words}");
            assert_eq!(&rt; gate.passed(), passed, "{words}: {kept:?}");
        }
    }
    Ok(())
}

// A third would enter the issuers that aren't kept. The first of two to give up does so, and the other may pass.
#[test]
fn two_workers_are_no_more(rt: HostRuntime) -> Result<(), Fail> {
    let mut depot = jobs(&rt)?;
    for (words, kept, lines) in COMMANDS {
        let gate = Holds::new([0, 1], 4, FEW);
        let words = words.replace(rt.alloc(), "W", "2")?;
        assert!(&rt; prints(&rt, &mut depot, &gate, &words, lines)?, "{words}");
        assert!(&rt; gate.passed() <= kept / 2, "{words}");
    }
    Ok(())
}

const MANY_MADE: &str = "sample 7 entries 200000 revoked 2000 bytes 21670458\n";

const MANY_PUBLISHED: &str =
    "epoch 1 part 0 issuers 4 universe 200000 revoked 2000 unread 0 uncovered 0 unenrolled 0 late 0 accepted 200000\n";

const MANY_REBASED: &str = "rebase epoch 1 issuers 4 universe 200000 revoked 2000 pruned 0\n";

/// By tools/reference.py: `History([sample_job(7, 200000)]).parts()[0].trailer`. Each block is cut into two shards.
const TRAILER: &str = "bf7473715e0181a9398385190b0dad268af663e703144f1f58368492b1e6b86c";

// Over real files. The trailer is the digest of all that stands before it in the part that the other program made. The
// ledger has 10 MB. Of the chain that begins anew the line alone is compared.
#[test]
fn two_hundred_thousand_by_one_and_eight(rt: HostRuntime) -> Result<(), Fail> {
    if fs::exists(&rt, "many")? {
        fs::remove_dir_all(&rt, "many")?;
    }
    fs::create_dir(&rt, "many")?;
    let depot = &mut FileDepot::new(&rt);
    for (words, line) in [
        ("sample 7 200000 many/J", MANY_MADE),
        ("snapshot many/J many/P many/L 1", MANY_PUBLISHED),
        ("snapshot many/J many/O many/M 8", MANY_PUBLISHED),
        ("rebase many/L 0 many/B many/N 2", MANY_REBASED),
    ] {
        assert!(&rt; prints(&rt, depot, &Open, words, line)?, "{words}");
    }
    let part = fs::read(&rt, "many/P")?;
    assert!(&rt; part == fs::read(&rt, "many/O")?);
    assert!(&rt; part.ends_with(&hex::decode(rt.alloc(), TRAILER)?));
    assert!(&rt; fs::read(&rt, "many/L")? == fs::read(&rt, "many/M")?);
    Ok(fs::remove_dir_all(&rt, "many")?)
}
