//! Files of interrupt cycles, up to as many as there may be, and one more.
use crate::same::{same, same_for};
use mx_board::{EventError, Requests};
use mx_io::Memory;
use std::alloc::Global;
use std::test::Fail;

/// The most bytes of a file of interrupt cycles.
const MOST: usize = 1_048_576;

/// Whether requests are these numbers, and want the first two of these cycles but not the third.
fn are(requests: &Requests, list: &[u32], cycles: [u32; 3]) -> [bool; 2] {
    let [first, second, other] = cycles;
    let wanted = requests.wants(first) && requests.wants(second) && !requests.wants(other);
    [requests.list() == list, wanted]
}

#[test]
fn numbers_stand_one_a_line(rt: HostRuntime) -> Result<(), Fail> {
    let text = b" 7\r\n\t\n\n0012 \t\n4294967295";
    let requests = Requests::parse(rt.alloc(), text.as_slice())?;
    let right = are(&requests, &[7, 12, 4_294_967_295], [7, 4_294_967_295, 11]);
    same(&rt, &right, &[true; 2]);
    Ok(())
}

#[test]
fn requests_are_those_given(rt: HostRuntime) -> Result<(), Memory> {
    let requests = Requests::of(rt.alloc(), [3, 8].as_slice())?;
    same(&rt, &are(&requests, &[3, 8], [3, 8, 4]), &[true; 2]);
    Ok(())
}

#[test]
fn there_may_be_no_requests(rt: HostRuntime) {
    same(&rt, &Requests::none(rt.alloc()).list().is_empty(), &true);
}

/// The fault of a file that has these bytes and an end, if it has one.
fn fault(alloc: Global, front: &[u8], end: &[u8]) -> Result<Option<EventError>, Fail> {
    let mut bytes = Vec::from_slice(alloc, front)?;
    bytes.extend_from_slice(end)?;
    if bytes.len() > MOST {
        return Err("too long".into());
    }
    Ok(Requests::parse(alloc, &bytes).err())
}

static FAULTS: [(&[u8], EventError); 4] = [
    (b"5\n5", EventError::NotAscending { line: 2 }),
    (b"x", EventError::BadLine { line: 1 }),
    (b"1\n\n4294967296\n0", EventError::BadLine { line: 3 }),
    (b"3 4", EventError::BadLine { line: 1 }),
];

#[test]
fn the_first_faulty_line_is_named(rt: HostRuntime) -> Result<(), Fail> {
    for (bytes, wanted) in FAULTS.iter() {
        same_for(&rt, bytes, &fault(rt.alloc(), b"", bytes)?, &Some(*wanted));
    }
    Ok(())
}

/// The first so many numbers, one a line.
fn numbers(alloc: Global, count: u32) -> Result<Vec<u8>, Fail> {
    let mut text = Vec::new(alloc);
    for n in 0..count {
        let line = format!(in alloc; "{n}\n")?;
        text.extend_from_slice(line.as_bytes())?;
    }
    Ok(text)
}

// One number more is too many, also where it does not ascend.
static ENDS: [(&[u8], Option<EventError>); 3] = [
    (b"", None),
    (b"65536\n", Some(EventError::TooMany { line: 65_537 })),
    (b"0\n", Some(EventError::TooMany { line: 65_537 })),
];

/// The fault of a file that has as many numbers as there may be and an end, if it has one.
fn fault_behind_most(alloc: Global, end: &[u8]) -> Result<Option<EventError>, Fail> {
    let most = numbers(alloc, 65_536)?;
    fault(alloc, &most, end)
}

#[test]
fn there_are_at_most_65_536_numbers(rt: HostRuntime) -> Result<(), Fail> {
    for (end, wanted) in ENDS.iter() {
        same_for(&rt, end, &fault_behind_most(rt.alloc(), end)?, wanted);
    }
    Ok(())
}
