//! Files and a sink in memory: reads, calls that fail by their numbers, and what each call of a depot or a sink offers.

ghost use Rattle.std.specs.Prelude.{None};

use outside_core::{Depot, Failed, Feed, MemoryDepot, MemorySink, Sink, append_all, write_all};
use std::test::Fail;

// The calls of begin and append are numbered together, from 0; `put` has no number, and the append of no bytes, which
// has the number 2, never fails. Where the call with the number `failing` fails, what stands under A and C is compared,
// and B keeps its bytes.
#[test]
fn writes_failing_in_turn(rt: HostRuntime) -> Result<(), Fail> {
    let rows = [
        (0, b"oldxy".as_slice(), Some(b"z".as_slice())),
        (1, b"".as_slice(), Some(b"z".as_slice())),
        (2, b"xy".as_slice(), Some(b"z".as_slice())),
        (3, b"xy".as_slice(), None),
        (4, b"xy".as_slice(), Some(b"z".as_slice())),
    ];
    for (failing, a, c) in rows {
        let mut depot = MemoryDepot::new(rt.alloc());
        depot.put("A", b"old")?;
        depot.fail_writes(&[7, 8])?;
        depot.fail_writes(&[failing])?;
        assert_eq!(rt; depot.begin("A").is_ok(), failing != 0);
        depot.put("B", b"other")?;
        assert_eq!(rt; depot.append("A", b"xy").is_ok(), failing != 1);
        assert_eq!(rt; depot.append("A", b""), Ok(0));
        assert_eq!(rt; depot.append("C", b"z").is_ok(), failing != 3);
        assert_eq!(rt; depot.bytes_of("A"), Some(a), "write {failing} fails");
        assert_eq!(rt; depot.bytes_of("B"), Some(b"other".as_slice()));
        assert_eq!(rt; depot.bytes_of("C"), c, "write {failing} fails");
    }
    Ok(())
}

// A read fills as much of the buffer as the file gives. The read with the number 6 fails, and the next one doesn't.
#[test]
fn reads(rt: HostRuntime) -> Result<(), Fail> {
    let mut depot = MemoryDepot::new(rt.alloc());
    depot.put("A", b"before")?;
    depot.put("B", b"0123456789")?;
    depot.fail_reads(&[6])?;
    let rows = [
        ("B", 0, 4, Ok(b"0123".as_slice())),
        ("B", 8, 4, Ok(b"89".as_slice())),
        ("B", 10, 4, Ok(b"".as_slice())),
        ("B", u64::MAX, 4, Ok(b"".as_slice())),
        ("B", 3, 0, Ok(b"".as_slice())),
        ("C", 0, 4, Err(Failed)),
        ("B", 0, 4, Err(Failed)),
        ("B", 0, 4, Ok(b"0123".as_slice())),
    ];
    for (name, at, room, want) in rows {
        let mut buf = [b'-'; 4];
        let count = depot.read_at(name, at, &mut buf[..room]);
        assert_eq!(rt; count.map(|n| &buf[..n]), want, "{name} from {at}");
    }
    Ok(())
}

// A failing write keeps nothing of its piece, and the next go on. A write of no bytes has its number, and never fails.
#[test]
fn sink_writes_failing(rt: HostRuntime) -> Result<(), Fail> {
    let mut sink = MemorySink::new(rt.alloc());
    sink.fail_writes(&[1, 2])?;
    assert_eq!(rt; sink.write(b"one"), Ok(3));
    assert_eq!(rt; sink.write(b"two"), Err(Failed));
    assert_eq!(rt; sink.write(b""), Ok(0));
    assert_eq!(rt; sink.write(b"three"), Ok(5));
    assert_eq!(rt; sink.bytes(), b"onethree".as_slice());
    Ok(())
}

// A feed makes one read a piece, and none while bytes are left. After the failed one the feed goes on where it stood.
#[test]
fn one_read_a_piece(rt: HostRuntime) -> Result<(), Fail> {
    let mut depot = MemoryDepot::new(rt.alloc());
    depot.put("A", &[b'x'; 5000])?;
    depot.fail_reads(&[1, 3])?;
    let mut feed = Feed::new(&mut depot, "A");
    for (at, want) in [
        (0, Ok(4096)),
        (96, Ok(4000)),
        (4096, Err(Failed)),
        (4096, Ok(904)),
        (5000, Err(Failed)),
        (5000, Ok(0)),
    ] {
        let ready = feed.buffered().len();
        let n = (at - feed.at().min(at)) as usize;
        feed.take(n.min(ready));
        assert_eq!(rt; feed.fill().map(|bytes| bytes.len()), want, "at {at}");
        assert_eq!(rt; feed.at(), at);
    }
    Ok(())
}

// A depot and a sink that takes at most so many bytes a call, and notes how many each call offered.
#[derive(Drop)]
struct Noting {
    most: usize,
    offered: Vec<usize>,
    faults: u64,
}

impl Depot for Noting {
    ghost files = { λ _. None };

    ghost read_faults = { λ _. 0 };

    ghost failed_reads = { λ _. None };

    ghost write_faults = { λ d. d.faults };

    fn read_at(&mut self, _name: &str, _at: u64, _buf: &mut [u8]) -> Result<usize, Failed> {
        Ok(0)
    }

    fn begin(&mut self, _name: &str) -> Result<(), Failed> {
        Ok(())
    }

    fn append(&mut self, _name: &str, bytes: &[u8]) -> Result<usize, Failed> {
        self.write(bytes)
    }
}

impl Sink for Noting {
    ghost written = { λ _. None };

    ghost faults = { λ s. s.faults };

    fn write(&mut self, bytes: &[u8]) -> Result<usize, Failed> {
        let noted = self.offered.push(bytes.len());
        if bytes.is_empty() {
            return Ok(0);
        }
        if noted.is_err() {
            self.faults = self.faults.saturating_add(1);
            return Err(Failed);
        }
        Ok(bytes.len().min(self.most.max(1)))
    }
}

// Each call offers all bytes that aren't taken (`append_all`), or the next 4,096 of them (`write_all`).
#[test]
fn offered_pieces(rt: HostRuntime) -> Result<(), Fail> {
    let bytes = [b'x'; 10_000];
    let rows = [
        (0, 4096, [].as_slice(), [].as_slice()),
        (4096, 4096, [4096].as_slice(), [4096].as_slice()),
        (
            10_000,
            4096,
            [10_000, 5904, 1808].as_slice(),
            [4096, 4096, 1808].as_slice(),
        ),
        (
            5000,
            1000,
            [5000, 4000, 3000, 2000, 1000].as_slice(),
            [4096, 4000, 3000, 2000, 1000].as_slice(),
        ),
    ];
    for (len, most, all, pieces) in rows {
        let mut noting = Noting {
            most,
            offered: Vec::new(rt.alloc()),
            faults: 0,
        };
        append_all(&mut noting, "A", &bytes[..len])?;
        assert_eq!(rt; noting.offered.as_slice(), all, "{len} bytes");
        noting.offered.clear();
        write_all(&mut noting, &bytes[..len])?;
        assert_eq!(rt; noting.offered.as_slice(), pieces, "{len} bytes");
    }
    Ok(())
}
