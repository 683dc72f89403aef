//! A drawing as a text of 100 columns, in bands of sixteen cycles.
use crate::ending::push_ending;
use crate::label::{push_address, push_fitted_word};
use crate::marks::{cell_of, ended_before, stage_name, without};
use crate::subject::Subject;
use lab_draw::{Cell, Frame, Row};
use lab_positions::{Position, Positions, positions_of};
use lab_writer::Writer;
use std::alloc::{AllocError, Global};

/// The cycles of a band.
const COLUMNS: usize = 16;

/// The columns before those of the cycles.
const LABEL: usize = 36;

/// The signs of a word at most.
const WORD: usize = 20;

/// The signs of a line's number, with its mark, at most.
const LINE: usize = 5;

/// The columns of a cell.
const CELL: usize = 4;

// Appends a word and a mark, and blanks up to the next cell.
fn push_wide(text: &mut Writer, word: &str, mark: &str) {
    let place = text.len();
    text.push_str(word);
    text.push_str(mark);
    text.pad(place, CELL);
}

// Appends what a cell shows.
fn push_cell(text: &mut Writer, cell: Cell) {
    match cell {
        Cell::Nothing => push_wide(text, "", ""),
        Cell::Waits => push_wide(text, "..", ""),
        Cell::Live(number) => push_wide(text, stage_name(number), ""),
        Cell::Squashed(number) => push_wide(text, stage_name(number), "*"),
        Cell::Killed(number) => push_wide(text, stage_name(number), "!"),
    }
}

// Whether a row shows something in a band.
fn is_seen(row: &Row, begins: usize, end: usize) -> bool {
    for place in begins..end {
        if cell_of(row, place) != Cell::Nothing {
            return true;
        }
    }
    false
}

// Appends what stands before the cycles' numbers: the first of them, and the last.
fn push_title(text: &mut Writer, first: u64, last: u64) {
    let place = text.len();
    text.push_numbers(&["cycles ", " to "], &[first, last]);
    text.pad(place, LABEL);
}

// Appends the last three digits of a cycle's number.
fn push_digits(text: &mut Writer, cycle: u64) {
    let place = text.len();
    text.push_number(cycle % 1000);
    text.pad(place, CELL);
}

// Appends the line of the cycles' numbers.
fn push_numbers(text: &mut Writer, first: u64, count: usize) {
    let end = first.saturating_add(count as u64);
    push_title(text, first, end.saturating_sub(1));
    for cycle in first..end {
        push_digits(text, cycle);
    }
    text.end_line();
}

// What a cycle did beside its turn.
fn event_of(frame: &Frame) -> &'static str {
    if frame.cycled.taken {
        "int"
    } else if frame.requested {
        "req"
    } else {
        ""
    }
}

// Appends a byte that was sent, as a character where it is one that can be seen.
fn push_sent(text: &mut Writer, byte: u8) {
    if byte > 32 && byte < 127 {
        text.push('\'');
        text.push(char::from(byte));
        text.push_str("' ");
    } else {
        write!(text, "{byte:02x}  ");
    }
}

// Whether a request or an interrupt came in one of the cycles.
fn is_interrupted(frames: &[Frame]) -> bool {
    for frame in frames {
        if frame.requested || frame.cycled.taken {
            return true;
        }
    }
    false
}

// Whether a byte was sent in one of the cycles.
fn is_sending(frames: &[Frame]) -> bool {
    for frame in frames {
        if frame.cycled.byte.is_some() {
            return true;
        }
    }
    false
}

// Appends the line of requests and interrupts.
fn push_interrupts(text: &mut Writer, frames: &[Frame]) {
    text.push_padded("interrupts", LABEL);
    for frame in frames {
        push_wide(text, event_of(frame), "");
    }
    text.end_line();
}

// Appends the line of the bytes that were sent.
fn push_console(text: &mut Writer, frames: &[Frame]) {
    text.push_padded("console", LABEL);
    for frame in frames {
        match frame.cycled.byte {
            Some(byte) => push_sent(text, byte),
            None => push_wide(text, "", ""),
        }
    }
    text.end_line();
}

// Appends the lines above the rows: the cycles' numbers, and where there are any, requests and bytes that were sent.
fn push_heads(text: &mut Writer, first: u64, frames: &[Frame]) {
    push_numbers(text, first, frames.len());
    if is_interrupted(frames) {
        push_interrupts(text, frames);
    }
    if is_sending(frames) {
        push_console(text, frames);
    }
}

// Appends the label of a row: its address, its word and the line of the source.
fn push_label(text: &mut Writer, subject: &Subject, address: Option<u32>) {
    push_address(text, address);
    text.push(' ');
    let place = text.len();
    push_fitted_word(text, subject, address, WORD);
    text.pad(place, WORD);
    text.push(' ');
    subject.push_origin(text, address, LINE);
    text.push(' ');
}

// Appends the line of a row in the band from a place to another.
fn push_row(text: &mut Writer, subject: &Subject, row: &Row, begins: usize, end: usize) {
    push_label(text, subject, row.address);
    for place in begins..end {
        push_cell(text, cell_of(row, place));
    }
    text.end_line();
}

/// What the rows of a band have been told of the lines of C.
#[derive(Clone, Copy)]
struct Told<'a> {
    positions: &'a Positions,
    /// The line of C of the last row that has one.
    last: Option<Position>,
}

// Whether a line of C is another one than that of the rows before.
fn is_new(last: Option<Position>, position: Position) -> bool {
    match last {
        Some(last) => last.file != position.file || last.line != position.line,
        None => true,
    }
}

// Appends the line of C that a row comes from, as a comment, where the row before it comes from another one.
fn push_position(text: &mut Writer, subject: &Subject, told: &mut Told, row: &Row) {
    let (_, line) = subject.origin_of(row.address);
    let Some(position) = told.positions.at(line.unwrap_or(0)) else {
        return;
    };
    if is_new(told.last, position) {
        text.push_str("; ");
        text.push_str(str::from_utf8(position.name.bytes(subject.text)).unwrap_or(""));
        text.end_line();
    }
    told.last = Some(position);
}

// Appends the lines of the rows in the band from a place to another.
fn push_rows(
    text: &mut Writer,
    subject: &Subject,
    positions: &Positions,
    rows: &[Row],
    begins: usize,
    end: usize,
) {
    let mut told = Told {
        positions,
        last: None,
    };
    for row in rows {
        if row.begins >= end {
            return;
        }
        if is_seen(row, begins, end) {
            push_position(text, subject, &mut told, row);
            push_row(text, subject, row, begins, end);
        }
    }
}

// Appends the band from a place on, with the rows that have not ended before it.
fn push_band(
    text: &mut Writer,
    subject: &Subject,
    positions: &Positions,
    rows: &[Row],
    begins: usize,
    shown: &[Frame],
) {
    let first = u64::from(subject.from).saturating_add(begins as u64);
    push_heads(text, first, shown);
    let end = begins.saturating_add(shown.len());
    push_rows(text, subject, positions, rows, begins, end);
    text.push('\n');
}

// Appends the bands.
fn push_bands(text: &mut Writer, subject: &Subject, positions: &Positions, rows: &[Row]) {
    let mut left = rows;
    let mut begins = 0usize;
    for shown in subject.drawing.frames.as_slice().chunks(COLUMNS) {
        left = without(left, ended_before(left, begins.saturating_add(1)));
        push_band(text, subject, positions, left, begins, shown);
        begins = begins.saturating_add(COLUMNS);
    }
}

/// A drawing as a text of 100 columns: bands of sixteen cycles, a row a fetch, a cell a cycle. In a source that was made from C a comment
/// `; FILE:LINE` comes before the rows of a line of C.
///
/// # Errors
///
/// `AllocError` where there is no room for it.
pub fn text(alloc: Global, subject: &Subject, rows: &[Row]) -> Result<Vec<u8>, AllocError> {
    let positions = positions_of(alloc, subject.text)?;
    let mut text = Writer::new(alloc);
    push_bands(&mut text, subject, &positions, rows);
    text.push_str(
        "IF RF ALU MEM WB: the stages; .. waits for the cache; * squashed; ! killed by an interrupt\n",
    );
    push_ending(&mut text, subject);
    text.push('\n');
    text.into_bytes()
}
