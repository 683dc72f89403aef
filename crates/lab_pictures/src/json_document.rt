//! A drawing as JSON.
use crate::members::{push_members, push_string};
use crate::subject::Subject;
use lab_draw::Row;
use lab_writer::Writer;
use std::alloc::{AllocError, Global};

// Appends the cycle in which the run halts, where it does within its budget.
fn push_halt(text: &mut Writer, subject: &Subject) {
    match subject.drawing.end {
        Some(cycles) => text.push_number(u64::from(cycles.saturating_sub(1))),
        None => text.push_str("null"),
    }
}

// Appends what the page does not need as numbers.
fn push_front(text: &mut Writer, subject: &Subject) {
    text.push_str("{\"command\":\"draw\",\"file\":");
    push_string(text, subject.name().as_bytes());
    text.push_numbers(
        &[",\"budget\":", ",\"halts\":"],
        &[u64::from(subject.budget)],
    );
    push_halt(text, subject);
    text.push_str(",\n");
}

/// A drawing as one document of JSON: the members that the page of `html` holds, and before them the file, the budget, and the
/// cycle in which the run halts.
///
/// # Errors
///
/// `AllocError` where there is no room for it.
pub fn json(alloc: Global, subject: &Subject, rows: &[Row]) -> Result<Vec<u8>, AllocError> {
    let mut text = Writer::new(alloc);
    push_front(&mut text, subject);
    push_members(&mut text, subject, rows);
    text.into_bytes()
}
