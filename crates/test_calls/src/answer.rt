//! Files read, printed and written.
use crate::same::same;
use cmd_answer::{FileKind, Reply, Status, finish, read_file, replied};
use mx_io::{MemoryShelf, MemorySink, Shelf};
use std::alloc::Global;
use std::test::Fail;

/// Reads a file and writes it to another name, or prints why it is not read.
fn copied(
    alloc: Global,
    shelf: &mut MemoryShelf,
    out: &mut MemorySink,
    kind: FileKind,
    from: &str,
    to: &str,
) -> Result<Status, Fail> {
    let name = String::from_str(alloc, to)?;
    let reply = match read_file(alloc, shelf, kind, from) {
        Ok(bytes) => Reply::Writes { name, bytes },
        Err(failure) => replied(Err(failure))?,
    };
    Ok(finish(reply, shelf, out))
}

/// The kind of a file, its name, the name of the copy, and how it ends: with a file that is there, with its copy, and with one
/// that is not there.
static COPIES: [(FileKind, &str, &str, Status); 3] = [
    (FileKind::Source, "a", "b", Status::Done),
    (FileKind::Image, "b", "d", Status::Done),
    (FileKind::Input, "c", "e", Status::ReadFault),
];

/// The number of the first copy that does not end as it should.
fn first_wrong(
    alloc: Global,
    shelf: &mut MemoryShelf,
    out: &mut MemorySink,
) -> Result<Option<usize>, Fail> {
    for (number, (kind, from, to, wanted)) in COPIES.iter().enumerate() {
        if copied(alloc, shelf, out, *kind, from, to)? != *wanted {
            return Ok(Some(number));
        }
    }
    Ok(None)
}

/// The first wrong copy of a file, and whether the copy of its copy holds the same.
fn copies_of(alloc: Global, out: &mut MemorySink) -> Result<(Option<usize>, bool), Fail> {
    let mut shelf = MemoryShelf::new(alloc);
    shelf.add("a", b"halt")?;
    let wrong = first_wrong(alloc, &mut shelf, out)?;
    let held = shelf.read(alloc, "d", 4)?.as_slice() == b"halt".as_slice();
    Ok((wrong, held))
}

/// The first wrong copy; and whether the copy of the copy holds the same, and what is printed is right.
fn copies(alloc: Global) -> Result<(Option<usize>, bool, bool), Fail> {
    let mut out = MemorySink::new(alloc, 16, 100)?;
    let (wrong, held) = copies_of(alloc, &mut out)?;
    let printed = out.written() == b"read fault: input failed\n".as_slice();
    Ok((wrong, held, printed))
}

#[test]
fn reads_prints_and_writes(rt: HostRuntime) -> Result<(), Fail> {
    same(&rt, &copies(rt.alloc())?, &(None, true, true));
    Ok(())
}

#[test]
fn a_status_has_its_number(rt: HostRuntime) {
    same(&rt, &Status::BadEvents.number(), &8);
}
