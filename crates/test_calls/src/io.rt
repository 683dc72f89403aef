//! The objects in memory, and the edge to the system.
use crate::same::same;
use mx_io::{
    MemoryShelf, MemorySink, RealShelf, RealSink, Shelf, ShelfFault, Sink, SinkFault, SliceSink,
    put_all,
};
use std::alloc::Global;
use std::fs;
use std::test::Fail;

/// Whether a shelf answers so, when a name is read up to that many bytes.
fn answers<S: Shelf>(
    alloc: Global,
    shelf: &mut S,
    name: &str,
    limit: usize,
    wanted: Result<&[u8], ShelfFault>,
) -> bool {
    match (shelf.read(alloc, name, limit), wanted) {
        (Ok(bytes), Ok(wanted)) => bytes.as_slice() == wanted,
        (Err(fault), Err(wanted)) => fault == wanted,
        _ => false,
    }
}

/// What is done with a shelf, and what it answers.
enum Step {
    Add(&'static str, &'static [u8]),
    Write(&'static str, &'static [u8], Result<(), ShelfFault>),
    Fail(u64),
    Read(&'static str, usize, Result<&'static [u8], ShelfFault>),
}

/// Whether a step gives what it should.
fn is_right(alloc: Global, shelf: &mut MemoryShelf, step: &Step) -> bool {
    match step {
        Step::Add(name, bytes) => shelf.add(name, bytes).is_ok(),
        Step::Write(name, bytes, wanted) => shelf.write(name, bytes) == *wanted,
        Step::Fail(call) => shelf.fail_at(*call).is_ok(),
        Step::Read(name, limit, wanted) => answers(alloc, shelf, name, *limit, *wanted),
    }
}

/// The number of the first step that gives anything else, on an empty shelf.
fn first_wrong_step(alloc: Global, steps: &[Step]) -> Option<usize> {
    let mut shelf = MemoryShelf::new(alloc);
    for (number, step) in steps.iter().enumerate() {
        if !is_right(alloc, &mut shelf, step) {
            return Some(number);
        }
    }
    None
}

static HELD: [Step; 7] = [
    Step::Add("a", b"one"),
    Step::Add("a", b"other"),
    Step::Write("b", b"two", Ok(())),
    Step::Read("a", 5, Ok(b"other")),
    Step::Read("b", 9, Ok(b"two")),
    Step::Read("a", 4, Err(ShelfFault::TooLong)),
    Step::Read("c", 4, Err(ShelfFault::Failed)),
];

static FAILING: [Step; 7] = [
    Step::Add("a", b"one"),
    Step::Fail(2),
    Step::Fail(3),
    Step::Read("a", 3, Ok(b"one")),
    Step::Read("a", 3, Err(ShelfFault::Failed)),
    Step::Write("a", b"two", Err(ShelfFault::Failed)),
    Step::Read("a", 3, Ok(b"one")),
];

#[test]
fn a_shelf_in_memory_reads_what_it_holds(rt: HostRuntime) {
    same(&rt, &first_wrong_step(rt.alloc(), HELD.as_slice()), &None);
}

#[test]
fn a_shelf_in_memory_fails_where_it_is_told_to(rt: HostRuntime) {
    same(
        &rt,
        &first_wrong_step(rt.alloc(), FAILING.as_slice()),
        &None,
    );
}

/// Bytes for a sink, whether they are put until all are taken, and how many are.
type Piece = (&'static [u8], bool, Result<usize, SinkFault>);

fn put<S: Sink>(sink: &mut S, bytes: &[u8], all: bool) -> Result<usize, SinkFault> {
    if all {
        put_all(sink, bytes)?;
        Ok(bytes.len())
    } else {
        sink.put(bytes)
    }
}

/// The number of the first of the puts that does not end as it should.
fn first_wrong_put<S: Sink>(sink: &mut S, puts: &[Piece]) -> Option<usize> {
    for (number, (bytes, all, wanted)) in puts.iter().enumerate() {
        if put(sink, bytes, *all) != *wanted {
            return Some(number);
        }
    }
    None
}

static INTO_MEMORY: [Piece; 3] = [
    (b"abcde", true, Ok(5)),
    (b"f", false, Err(SinkFault::Failed)),
    (b"fgh", true, Err(SinkFault::Failed)),
];

/// The first wrong put into a sink whose fourth one fails, and whether it holds what it should.
fn put_into_memory(alloc: Global) -> Result<(Option<usize>, bool), Fail> {
    let mut sink = MemorySink::new(alloc, 2, 7)?;
    sink.fail_at(4)?;
    let wrong = first_wrong_put(&mut sink, &INTO_MEMORY);
    Ok((wrong, sink.written() == b"abcdefg".as_slice()))
}

#[test]
fn a_sink_in_memory_takes_pieces_and_fails_where_it_is_told_to(
    rt: HostRuntime,
) -> Result<(), Fail> {
    same(&rt, &put_into_memory(rt.alloc())?, &(None, true));
    Ok(())
}

static INTO_A_SLICE: [Piece; 4] = [
    (b"ab", false, Ok(2)),
    (b"cde", false, Ok(2)),
    (b"e", false, Err(SinkFault::Failed)),
    (b"", false, Ok(0)),
];

#[test]
fn a_sink_over_a_slice_fills_it(rt: HostRuntime) {
    let mut bytes = [0u8; 4];
    let wrong = first_wrong_put(&mut SliceSink::new(&mut bytes), &INTO_A_SLICE);
    same(&rt, &(wrong, bytes), &(None, *b"abcd"));
}

#[test]
fn a_sink_over_a_slice_leaves_the_rest(rt: HostRuntime) {
    let mut bytes = *b"....";
    let taken = SliceSink::new(&mut bytes).put(b"ab");
    same(&rt, &(taken, bytes), &(Ok(2), *b"ab.."));
}

/// Whether a file of the system that gets these bytes is read with them, and is too long for a byte less.
fn written_and_read(rt: &HostRuntime, name: &str, bytes: &[u8]) -> Result<[bool; 2], Fail> {
    let alloc = rt.alloc();
    let count = bytes.len();
    let mut shelf = RealShelf::new(rt);
    shelf.write(name, bytes)?;
    let held = answers(alloc, &mut shelf, name, count, Ok(bytes));
    let less = count.saturating_sub(1);
    let over = answers(alloc, &mut shelf, name, less, Err(ShelfFault::TooLong));
    fs::remove_file(rt, name)?;
    Ok([held, over])
}

#[test]
fn the_files_of_the_system_are_read_and_written(rt: HostRuntime) -> Result<(), Fail> {
    let right = written_and_read(&rt, "mx_io_test_file", b"words")?;
    same(&rt, &right, &[true; 2]);
    Ok(())
}

#[test]
fn a_file_that_is_not_there_is_not_read(rt: HostRuntime) {
    let mut shelf = RealShelf::new(&rt);
    let failed = Err(ShelfFault::Failed);
    same(
        &rt,
        &answers(rt.alloc(), &mut shelf, "mx_io_no_such_file", 9, failed),
        &true,
    );
}

/// Bytes that are asked for in pieces.
fn long_bytes(alloc: Global) -> Result<Vec<u8>, Fail> {
    let mut bytes = Vec::new(alloc);
    for n in 0..10_001u32 {
        bytes.push((n % 251) as u8)?;
    }
    Ok(bytes)
}

fn long_written_and_read(rt: &HostRuntime) -> Result<[bool; 2], Fail> {
    let bytes = long_bytes(rt.alloc())?;
    written_and_read(rt, "mx_io_long_file", &bytes)
}

#[test]
fn a_long_file_of_the_system_is_read_whole(rt: HostRuntime) -> Result<(), Fail> {
    same(&rt, &long_written_and_read(&rt)?, &[true; 2]);
    Ok(())
}

#[test]
fn the_standard_output_takes_bytes(rt: HostRuntime) -> Result<(), Fail> {
    put_all(&mut RealSink::new(&rt), b"put by a test\n")?;
    Ok(())
}
