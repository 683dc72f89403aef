//! The blocks of a source as a text.
use crate::facts::{Facts, NOT_HALTED, Row, Successors};
use crate::registers::{CALLED, has_name};
use lab_writer::Writer;
use mx_blocks::End;
use mx_isa::Names;
use std::alloc::{AllocError, Global};

/// The head of the columns.
const HEAD: &str = "   n  line  instruction               reads       writes  height  depends on\n";

/// How wide the columns are.
const TEXT: usize = 26;

const READS: usize = 12;

const WRITES: usize = 6;

// Appends the names of a set in a column.
fn push_names(text: &mut Writer, names: Names, width: usize) {
    let (place, mut parting) = (text.len(), "");
    for number in 1..CALLED.len() {
        if has_name(names, number) {
            text.push_parts(&[parting, CALLED[number]]);
            parting = " ";
        }
    }
    text.pad(place, width);
}

// Appends what an instruction depends on: the number of an earlier one, why, and `+1` where the two may not be neighbours.
fn push_causes(text: &mut Writer, facts: &Facts, to: usize) {
    let mut parting = "  ";
    for edge in facts.edges.iter() {
        if edge.to == to {
            text.push_str(parting);
            text.push_number(edge.from as u64);
            text.push_parts(&[" ", edge.kind.word()]);
            text.push_str(if edge.weight > 1 { " load" } else { "" });
            parting = ", ";
        }
    }
}

// Appends the line of an instruction.
fn push_row(text: &mut Writer, facts: &Facts, k: usize, row: &Row) {
    text.push_columns(&[(k as u64, 3), (u64::from(row.line), 5)]);
    text.push_str("  ");
    text.push_padded(&row.text, TEXT);
    push_names(text, row.inst.reads(), READS);
    push_names(text, row.inst.writes(), WRITES);
    text.push_columns(&[(u64::from(row.height), 7)]);
    push_causes(text, facts, k);
    text.end_line();
}

// Appends the lines of a block.
fn push_lines(text: &mut Writer, first: u32, last: u32) {
    let (first, last) = (u64::from(first), u64::from(last));
    if first == last {
        text.push_numbers(&[", line "], &[first]);
    } else {
        text.push_numbers(&[", lines ", " to "], &[first, last]);
    }
}

/// Appends how often a block ran.
pub(crate) fn push_ran(text: &mut Writer, ran: u64) {
    text.push_numbers(&[", ran "], &[ran]);
    text.push_str(if ran == 1 { " time" } else { " times" });
}

// Appends the first line of a block.
fn push_head(text: &mut Writer, number: usize, facts: &Facts) {
    let (first, last) = facts.lines();
    text.push_numbers(&["block "], &[number as u64]);
    push_lines(text, first, last);
    push_ran(text, facts.ran);
    let mut parting = ": ";
    for label in facts.labels.iter() {
        text.push_parts(&[parting, label.as_str()]);
        parting = " ";
    }
    text.push('\n');
}

// Appends where a block goes on.
fn push_successors(text: &mut Writer, end: End, successors: Successors) {
    match (successors.target, successors.next) {
        (Some(target), Some(next)) => text.push_numbers(
            &["  then block ", " or ", "\n"],
            &[u64::from(target), u64::from(next)],
        ),
        (Some(one), None) | (None, Some(one)) => {
            text.push_numbers(&["  then block ", "\n"], &[u64::from(one)])
        }
        (None, None) => text.push_str(match end {
            End::Halts => "  then it halts\n",
            End::Jumps => "  then where its register leads\n",
            _ => "  then past the last instruction\n",
        }),
    }
}

// Appends the lengths of a block's plans.
fn push_lengths(text: &mut Writer, facts: &Facts) {
    let lengths = facts.lengths;
    let (list, best) = (u64::from(lengths.list), u64::from(lengths.best));
    text.push_numbers(&["  at least "], &[u64::from(facts.bound)]);
    text.push_str(if facts.bound == 1 { " word" } else { " words" });
    text.push_numbers(&["; padded "], &[u64::from(lengths.padded)]);
    text.push_numbers(&[", list ", ", copies "], &[list, list]);
    if facts.copied > 0 {
        text.push_numbers(&[" (", " of its target)"], &[facts.copied as u64]);
    }
    text.push_numbers(&[", best ", "\n"], &[best]);
}

// Appends a block.
fn push_block(text: &mut Writer, number: usize, facts: &Facts) {
    push_head(text, number, facts);
    text.push_str(HEAD);
    for (k, row) in facts.rows.iter().enumerate() {
        push_row(text, facts, k, row);
    }
    push_successors(text, facts.end, facts.successors);
    push_lengths(text, facts);
}

// Appends that the run has not halted.
fn push_unhalted(text: &mut Writer) {
    text.push_parts(&["\n", NOT_HALTED, "\n"]);
}

/// The blocks of a source as a text, with a line for each instruction; a line behind them tells of a run that has not halted.
pub fn blocks_text(alloc: Global, blocks: &[Facts], halted: bool) -> Result<Vec<u8>, AllocError> {
    let mut text = Writer::new(alloc);
    let mut number = 0usize;
    for facts in blocks {
        if number > 0 {
            text.push('\n');
        }
        number = number.saturating_add(1);
        push_block(&mut text, number, facts);
    }
    if !halted {
        push_unhalted(&mut text);
    }
    text.into_bytes()
}
