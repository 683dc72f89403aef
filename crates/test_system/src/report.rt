//! What became of a read or a write, as a line.
use anyhow::Result;
use mx_io::{Shelf, ShelfFault};
use std::alloc::Global;

// A fault, in words.
fn fault_text(fault: ShelfFault) -> &'static str {
    match fault {
        ShelfFault::Failed => "failed",
        ShelfFault::TooLong => "too long",
        ShelfFault::Memory => "no memory",
    }
}

// The sum of some bytes.
fn sum_of(bytes: &[u8]) -> u64 {
    let mut sum = 0u64;
    for byte in bytes {
        sum = sum.saturating_add(u64::from(*byte));
    }
    sum
}

/// What reading a file gives: how many bytes, their sum and the last of them, or the fault.
pub fn read_line<S: Shelf>(
    alloc: Global,
    shelf: &mut S,
    name: &str,
    limit: usize,
) -> Result<String> {
    match shelf.read(alloc, name, limit) {
        Ok(bytes) => {
            let (count, sum) = (bytes.len(), sum_of(bytes.as_slice()));
            let last = bytes.last().copied().unwrap_or(0);
            Ok(format!(in alloc;
                "read {name} within {limit}: {count} bytes, sum {sum}, last {last}\n"
            )?)
        }
        Err(fault) => {
            let told = fault_text(fault);
            Ok(format!(in alloc; "read {name} within {limit}: {told}\n")?)
        }
    }
}

/// Whether a file was written.
pub fn write_line<S: Shelf>(
    alloc: Global,
    shelf: &mut S,
    name: &str,
    bytes: &[u8],
) -> Result<String> {
    let told = match shelf.write(name, bytes) {
        Ok(()) => "done",
        Err(fault) => fault_text(fault),
    };
    let count = bytes.len();
    Ok(format!(in alloc; "write {count} bytes to {name}: {told}\n")?)
}
