//! A sweep as text.
use super::histogram::push_histogram;
use super::places::Places;
use super::table::push_rows;
use lab_measures::{Row, Span, Spread, Sums, Sweep, sums_of};
use lab_writer::Writer;
use std::alloc::{AllocError, Global};

// Appends how the undisturbed run ended.
fn push_undisturbed(text: &mut Writer, sweep: &Sweep) {
    let end = if sweep.halted {
        " cycles, halted\n"
    } else {
        " cycles, out of budget\n"
    };
    text.push_numbers(&["undisturbed run      ", end], &[sweep.cycles]);
}

// Appends the cycles of a span.
fn push_span(text: &mut Writer, span: Span) {
    text.push_numbers(&["", " to "], &[u64::from(span.from), u64::from(span.to)]);
    if span.step > 1 {
        text.push_numbers(&[", ", " apart"], &[u64::from(span.step)]);
    }
    text.push('\n');
}

// Appends in which cycles the requests come.
fn push_requests(text: &mut Writer, sweep: &Sweep) {
    text.push_str(if sweep.is_pairs {
        "requests             in each two of the cycles "
    } else {
        "requests             in each of the cycles "
    });
    push_span(text, sweep.span);
}

// Appends a count under its name, in a column of this width.
fn push_count(text: &mut Writer, name: &str, count: usize, width: usize) {
    text.push_str(name);
    text.push_right(count as i128, width);
    text.push('\n');
}

// Appends how many runs there were, and how they ended.
fn push_counts(text: &mut Writer, sums: &Sums) {
    push_count(text, "runs          ", sums.runs, 7);
    push_count(text, "  halted      ", sums.halted, 7);
    push_count(text, "  other console ", sums.other_console, 5);
    push_count(text, "  interrupted ", sums.interrupted, 7);
}

// Appends the least of some numbers, that in the middle and the greatest, under their name.
fn push_spread(text: &mut Writer, name: &str, spread: &Option<Spread>) {
    text.push_str(name);
    match spread {
        Some(spread) => {
            text.push_right(spread.least as i128, 7);
            text.push_cell(Some(spread.median as i128), 7);
            text.push_cell(Some(spread.greatest as i128), 8);
            text.push('\n');
        }
        None => text.push_str("      -       -        -\n"),
    }
}

// A line of a text, counted from 1, without the blanks around it.
fn line_of(text: &[u8], line: u32) -> &[u8] {
    let mut at = 0u32;
    for piece in text.split(|byte| *byte == b'\n') {
        at = at.saturating_add(1);
        if at == line {
            return piece.trim_ascii();
        }
    }
    b""
}

// Appends where an interrupt fell: the line, if it is known, and its text.
fn push_place(text: &mut Writer, address: u32, line: u32, source: &[u8]) {
    if line == 0 {
        text.push_str(", at ");
        text.push_address(address);
    } else {
        text.push_numbers(&[", at line ", ": "], &[u64::from(line)]);
        text.push_bytes(line_of(source, line));
    }
}

// Appends the request that is waited for longest, and where its interrupt fell.
fn push_longest(text: &mut Writer, row: &Row, places: &Places, source: &[u8]) {
    text.push_str("longest wait  ");
    text.push_right(row.wait().unwrap_or(0) as i128, 7);
    text.push_numbers(
        &[" cycles, of the request in cycle "],
        &[u64::from(row.last())],
    );
    if let Some((address, _)) = row.killed() {
        push_place(text, address, places.line_at(address), source);
    }
    text.push('\n');
}

// Appends what all runs come to.
fn push_sums(text: &mut Writer, sums: &Sums, places: &Places, source: &[u8]) {
    push_counts(text, sums);
    text.push_str("                least  median greatest\n");
    push_spread(text, "cost, cycles  ", &sums.cost);
    push_spread(text, "wait, cycles  ", &sums.wait);
    if let Some(row) = &sums.longest {
        push_longest(text, row, places, source);
    }
    push_histogram(text, "\n   cost", &sums.cost);
    push_histogram(text, "\n   wait", &sums.wait);
}

/// A sweep as text: how the runs ended, what they cost and how long they wait, each as a histogram, and, where they are asked
/// for, the runs themselves. `source` is the text of the source.
pub fn sweep_text(
    alloc: Global,
    sweep: &Sweep,
    places: &Places,
    source: &[u8],
    with_rows: bool,
) -> Result<Vec<u8>, AllocError> {
    let mut text = Writer::new(alloc);
    push_undisturbed(&mut text, sweep);
    push_requests(&mut text, sweep);
    if let Some(sums) = text.take(sums_of(alloc, sweep)) {
        push_sums(&mut text, &sums, places, source);
    }
    if with_rows {
        push_rows(&mut text, sweep, places);
    }
    text.into_bytes()
}
