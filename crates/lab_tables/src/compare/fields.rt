//! Comparisons as CSV.
use super::schedulers::{SCHEDULERS, figures_at};
use super::several::{Column, Compared};
use super::table::{Cell, column_of};
use crate::rows::Rows;
use lab_measures::Figures;
use mx_io::Memory;
use std::alloc::Global;

/// The names of the columns.
static COLUMNS: [&str; 17] = [
    "source",
    "plans",
    "words",
    "noops",
    "copies",
    "branch_slots",
    "before",
    "target_squashed",
    "target",
    "slot_noops",
    "load_slots",
    "load_slots_filled",
    "cycles",
    "fetches",
    "misses",
    "squashes",
    "rejected",
];

// The number of a cell, if there is one.
fn number_in(cell: Cell) -> Option<i128> {
    match cell {
        Some((number, _)) => Some(number as i128),
        None => None,
    }
}

// Appends the row of plans of a source. The cycles of a run that has not halted are left empty.
fn push_figures(rows: &mut Rows, source: &str, plans: &str, figures: &Figures) {
    rows.push_name(source);
    rows.push_name(plans);
    let column = column_of(figures, figures);
    for cell in column.iter() {
        rows.push_numbers(&[number_in(*cell)]);
    }
    rows.end();
}

// Appends a row for each scheduler of a source.
fn push_source(rows: &mut Rows, one: &Compared) {
    for at in 0..SCHEDULERS.len() {
        let figures = figures_at(&one.comparison, at);
        push_figures(rows, one.source, SCHEDULERS[at], figures);
    }
}

/// A comparison as CSV: a row of names, and a row for each scheduler and for the plans of each file.
pub fn comparison_csv(
    alloc: Global,
    one: &Compared,
    columns: &[Column],
) -> Result<Vec<u8>, Memory> {
    let mut rows = Rows::new(alloc);
    rows.push_names(&COLUMNS);
    push_source(&mut rows, one);
    for column in columns {
        push_figures(&mut rows, one.source, column.name, &column.figures);
    }
    rows.into_bytes()
}

/// Comparisons as CSV: a row of names, and a row for each source and scheduler.
pub fn comparisons_csv(alloc: Global, compared: &[Compared]) -> Result<Vec<u8>, Memory> {
    let mut rows = Rows::new(alloc);
    rows.push_names(&COLUMNS);
    for one in compared {
        push_source(&mut rows, one);
    }
    rows.into_bytes()
}
