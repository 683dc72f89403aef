//! A drawing in the format Kanata 0004, which the Konata viewer reads.
use crate::label::push_address;
use crate::marks::{cell_of, ended_before, is_shown, stage_name, without};
use crate::subject::Subject;
use lab_draw::{Cell, Row};
use lab_writer::Writer;
use std::alloc::{AllocError, Global};

// Appends the lines with which an instruction comes in: its number, and its label.
fn push_begin(text: &mut Writer, subject: &Subject, row: &Row, number: u64) {
    text.push_numbers(
        &["I\t", "\t", "\t0\nL\t", "\t0\t"],
        &[number, row.fetch, number],
    );
    push_address(text, row.address);
    text.push_str(": ");
    subject.push_word(text, row.address);
    text.push_numbers(&["\nL\t", "\t1\tline "], &[number]);
    subject.push_origin(text, row.address, 0);
    text.push('\n');
}

// Appends the line with which an instruction leaves: it retires, or is flushed where it was squashed or killed.
fn push_end(text: &mut Writer, row: &Row, number: u64, flushed: u64) {
    text.push_numbers(&["R\t", "\t", "\t", "\n"], &[number, row.fetch, flushed]);
}

// Appends the line of a stage that begins.
fn push_stage(text: &mut Writer, number: u64, stage: &str, mark: &str) {
    text.push_numbers(&["S\t", "\t0\t", stage, mark, "\n"], &[number]);
}

// Appends what begins with a cell, by the cell before it.
fn push_change(text: &mut Writer, number: u64, before: Cell, now: Cell) {
    match now {
        Cell::Nothing => {}
        Cell::Waits => {
            if before != Cell::Waits {
                push_stage(text, number, "wait", "");
            }
        }
        Cell::Live(stage) => push_stage(text, number, stage_name(stage), ""),
        Cell::Squashed(stage) => push_stage(text, number, stage_name(stage), "*"),
        Cell::Killed(stage) => push_stage(text, number, stage_name(stage), "!"),
    }
}

// Appends how an instruction leaves behind its last cell.
fn push_leave(text: &mut Writer, row: &Row, number: u64, before: Cell) {
    match before {
        Cell::Live(4) => push_end(text, row, number, 0),
        Cell::Squashed(4) | Cell::Killed(_) => push_end(text, row, number, 1),
        _ => {}
    }
}

// Appends what a row does in the frame of a place.
fn push_row(text: &mut Writer, subject: &Subject, row: &Row, number: u64, place: usize) {
    let now = cell_of(row, place);
    if place == row.begins {
        push_begin(text, subject, row, number);
        push_change(text, number, Cell::Nothing, now);
    } else {
        let before = cell_of(row, place.saturating_sub(1));
        push_leave(text, row, number, before);
        push_change(text, number, before, now);
    }
}

// Appends what the rows do in the frame of a place, of which the first has a number. They stand in the order in which they begin.
fn push_frame(text: &mut Writer, subject: &Subject, rows: &[Row], first: u64, place: usize) {
    let mut number = first;
    for row in rows {
        if row.begins > place {
            return;
        }
        if is_shown(row) {
            push_row(text, subject, row, number, place);
        }
        number = number.saturating_add(1);
    }
}

// Appends the frames.
fn push_frames(text: &mut Writer, subject: &Subject, rows: &[Row]) {
    let mut left = rows;
    let mut first = 0u64;
    for place in 0..subject.drawing.frames.len() {
        let ended = ended_before(left, place);
        left = without(left, ended);
        first = first.saturating_add(ended as u64);
        if place > 0 {
            text.push_str("C\t1\n");
        }
        push_frame(text, subject, left, first, place);
    }
}

/// A drawing as a text in the format Kanata, version 0004.
///
/// # Errors
///
/// `AllocError` where there is no room for it.
pub fn kanata(alloc: Global, subject: &Subject, rows: &[Row]) -> Result<Vec<u8>, AllocError> {
    let mut text = Writer::new(alloc);
    text.push_numbers(&["Kanata\t0004\nC=\t", "\n"], &[u64::from(subject.from)]);
    push_frames(&mut text, subject, rows);
    text.into_bytes()
}
