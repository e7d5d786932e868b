//! Real files and a real disk, each in a folder that the test makes and removes.

use outside_core::{Depot, Failed, append_all};
use real_edge::{FileDepot, FileDisk};
use slot_core::{Disk, Slots, attach_and_replace, format};
use std::fs;
use std::process::Abort;
use std::rt::Files;
use std::test::Fail;

/// Makes a folder, in the place of one that an earlier run left.
fn begin_folder<R: Files + AllocGlobal>(rt: &R, folder: &str) -> Result<(), Fail> {
    if fs::exists(rt, folder)? {
        fs::remove_dir_all(rt, folder)?;
    }
    Ok(fs::create_dir(rt, folder)?)
}

/// Begins a file, and adds the bytes.
fn make<R: Files>(depot: &mut FileDepot<R>, name: &str, bytes: &[u8]) -> Result<(), Failed> {
    depot.begin(name)?;
    append_all(depot, name, bytes)
}

/// Compares what a file holds, whole and from the third byte on.
fn compare<R: Files + AllocGlobal + Abort>(
    rt: &R,
    depot: &mut FileDepot<R>,
    name: &str,
    want: &[u8],
) -> Result<(), Fail> {
    assert_eq!(rt; fs::read(rt, name)?.as_slice(), want, "{name}");
    let mut buf = [b'-'; 32];
    let count = depot.read_at(name, 2, &mut buf)?;
    assert_eq!(rt; buf.get(..count), want.get(2..), "{name} from 2");
    Ok(())
}

// Pieces of two files by turns: each stands behind those of its own file, and only `begin` drops what a file holds.
#[test]
fn pieces_of_two_files(rt: HostRuntime) -> Result<(), Fail> {
    let (folder, a, b) = ("real_files", "real_files/A", "real_files/B");
    begin_folder(&rt, folder)?;
    let mut depot = FileDepot::new(&rt);
    make(&mut depot, a, b"one ")?;
    append_all(&mut depot, a, b"two")?;
    make(&mut depot, b, b"other")?;
    append_all(&mut depot, a, b" three")?;
    assert_eq!(rt; depot.append(a, b""), Ok(0));
    compare(&rt, &mut depot, a, b"one two three")?;
    compare(&rt, &mut depot, b, b"other")?;
    depot.begin(a)?;
    append_all(&mut depot, b, b"s")?;
    append_all(&mut depot, a, b"anew")?;
    compare(&rt, &mut depot, a, b"anew")?;
    compare(&rt, &mut depot, b, b"others")?;
    fs::remove_dir_all(&rt, folder)?;
    assert_eq!(rt; depot.read_at(a, 0, &mut [0; 4]), Err(Failed));
    assert_eq!(rt; depot.begin(a), Err(Failed));
    assert_eq!(rt; depot.append(b, b"piece"), Err(Failed));
    Ok(())
}

// The file that is read is opened once: it is read on where its name is gone, until another one is read.
#[test]
fn a_file_is_opened_once(rt: HostRuntime) -> Result<(), Fail> {
    let (folder, first, second) = ("kept_files", "kept_files/first", "kept_files/second");
    begin_folder(&rt, folder)?;
    let mut depot = FileDepot::new(&rt);
    make(&mut depot, first, b"one two")?;
    make(&mut depot, second, b"other")?;
    let mut buf = [b'-'; 4];
    assert_eq!(rt; depot.read_at(first, 0, &mut buf), Ok(4));
    fs::remove_file(&rt, first)?;
    assert_eq!(rt; depot.read_at(first, 4, &mut buf), Ok(3));
    assert!(rt; buf.starts_with(b"two"));
    assert_eq!(rt; depot.read_at(second, 0, &mut buf), Ok(4));
    assert_eq!(rt; depot.read_at(first, 0, &mut buf), Err(Failed));
    Ok(fs::remove_dir_all(&rt, folder)?)
}

// A file is read ahead: on both sides of where that ends, and behind it what is added later.
#[test]
fn a_file_longer_than_is_read_ahead(rt: HostRuntime) -> Result<(), Fail> {
    let (folder, long) = ("files_read_ahead", "files_read_ahead/long");
    begin_folder(&rt, folder)?;
    let mut depot = FileDepot::new(&rt);
    make(&mut depot, long, &[0; 65_530])?;
    append_all(&mut depot, long, b"0123456789")?;
    let mut buf = [b'-'; 8];
    for (at, want) in [
        (0, [0; 8].as_slice()),
        (65_530, b"012345".as_slice()),
        (65_536, b"6789".as_slice()),
    ] {
        assert_eq!(rt; depot.read_at(long, at, &mut buf), Ok(want.len()));
        assert!(rt; buf.starts_with(want), "from {at}");
    }
    append_all(&mut depot, long, b"!")?;
    for (at, count) in [(65_540, 1), (65_541, 0), (3, 8)] {
        assert_eq!(rt; depot.read_at(long, at, &mut buf), Ok(count));
    }
    Ok(fs::remove_dir_all(&rt, folder)?)
}

// One call takes more than is read ahead, and a place above 4 GiB is another than the one 4 GiB before it. The far file
// is sparse.
#[test]
fn long_calls_and_far_places(rt: HostRuntime) -> Result<(), Fail> {
    let (folder, far, near) = ("far_files", "far_files/far", "far_files/near");
    let start = (1u64 << 32) + 5;
    begin_folder(&rt, folder)?;
    let mut bytes = Vec::new(rt.alloc());
    for number in 0..70_000u32 {
        bytes.push((number % 251) as u8)?;
    }
    let mut buf = vec![in rt.alloc(); 0; 70_000]?;
    let mut disk = FileDisk::new(&rt, far);
    assert_eq!(rt; disk.write_at(start, &bytes), Ok(()));
    assert_eq!(rt; disk.read_at(start, &mut buf), Ok(70_000));
    assert!(rt; buf == bytes);
    let mut depot = FileDepot::new(&rt);
    depot.begin(near)?;
    assert_eq!(rt; depot.append(near, &bytes), Ok(70_000));
    assert!(rt; fs::read(&rt, near)? == bytes);
    assert_eq!(rt; depot.append(far, b"!"), Ok(1));
    let mut buf = [b'-'; 4];
    for (at, want) in [
        (5, b"\0\0\0\0".as_slice()),
        (start, b"\0\x01\x02\x03".as_slice()),
        (start + 69_999, b"\xdd!".as_slice()),
    ] {
        assert_eq!(rt;
            depot.read_at(far, at, &mut buf),
            Ok(want.len()),
            "from {at}"
        );
        assert!(rt; buf.starts_with(want), "from {at}");
    }
    Ok(fs::remove_dir_all(&rt, folder)?)
}

// The file that was begun last keeps its bytes where another name of it is begun; by its own name it is begun anew.
#[test]
fn another_name_of_the_file_that_was_begun(rt: HostRuntime) -> Result<(), Fail> {
    let (folder, written, link) = ("linked_files", "linked_files/written", "linked_files/link");
    begin_folder(&rt, folder)?;
    let mut depot = FileDepot::new(&rt);
    make(&mut depot, written, b"one ")?;
    fs::hard_link(&rt, written, link)?;
    assert_eq!(rt; depot.begin(link), Err(Failed));
    assert_eq!(rt; depot.begin("linked_files/./written"), Err(Failed));
    append_all(&mut depot, written, b"two")?;
    assert_eq!(rt; fs::read(&rt, written)?.as_slice(), b"one two".as_slice());
    fs::remove_file(&rt, link)?;
    for name in [link, written, written] {
        assert_eq!(rt; depot.begin(name), Ok(()));
    }
    assert!(rt; fs::read(&rt, written)?.is_empty());
    Ok(fs::remove_dir_all(&rt, folder)?)
}

// A device that is always full, where the system has it.
#[test]
fn full_disk(rt: HostRuntime) -> Result<(), Fail> {
    let full = "/dev/full";
    if fs::exists(&rt, full)? {
        let mut depot = FileDepot::new(&rt);
        assert_eq!(rt; depot.begin(full), Ok(()));
        assert_eq!(rt; depot.append(full, b"piece"), Err(Failed));
        assert_eq!(rt; append_all(&mut depot, full, b"piece"), Err(Failed));
    }
    Ok(())
}

/// A read and a sync of a file that isn't there fail, and don't make it. A device is made, replaced and read, by a new
/// disk each time; the length of what the second slot holds stands behind the room of the first.
#[test]
fn a_device_in_a_file(rt: HostRuntime) -> Result<(), Fail> {
    let (folder, device) = ("real_disk", "real_disk/device");
    begin_folder(&rt, folder)?;
    let mut disk = FileDisk::new(&rt, device);
    assert_eq!(rt; disk.read_at(0, &mut [0; 4]), Err(Failed));
    assert_eq!(rt; disk.sync(), Err(Failed));
    assert!(rt; !fs::exists(&rt, device)?);
    format(&mut disk, 16, b"first")?;
    attach_and_replace(&mut FileDisk::new(&rt, device), b"the second")?;
    let mut last = FileDisk::new(&rt, device);
    let held = Slots::attach(&mut last)?.read(&mut last, rt.alloc())?;
    assert_eq!(rt; held.as_slice(), b"the second".as_slice());
    let bytes = fs::read(&rt, device)?;
    assert!(rt; bytes.starts_with(b"\x01C"));
    assert_eq!(rt; bytes.get(4120..4128), Some(b"\0\0\0\0\0\0\0\n".as_slice()));
    Ok(fs::remove_dir_all(&rt, folder)?)
}
