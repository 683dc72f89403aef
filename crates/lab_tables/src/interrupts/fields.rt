//! The runs of a sweep as CSV.
use super::places::Places;
use crate::rows::Rows;
use lab_measures::{Row, Sweep};
use mx_io::Memory;
use std::alloc::Global;

/// The names of the columns.
static COLUMNS: [&str; 13] = [
    "source",
    "first",
    "second",
    "taken",
    "handler",
    "wait",
    "line",
    "address",
    "squashed",
    "halted",
    "cycles",
    "cost",
    "same_console",
];

/// A number with a sign, if there is one.
pub(crate) fn signed(number: Option<i64>) -> Option<i128> {
    match number {
        Some(number) => Some(number as i128),
        None => None,
    }
}

// Appends the cycles of the requests of a run.
fn push_requests(rows: &mut Rows, row: &Row) {
    let second = match row.second {
        Some(second) => Some(second as i128),
        None => None,
    };
    rows.push_numbers(&[Some(row.first as i128), second]);
}

// Appends the cycles in which the last request of a run became an interrupt and in which the handler's first word was fetched.
fn push_entry(rows: &mut Rows, row: &Row) {
    match row.entry {
        Some(entry) => rows.push_numbers(&[Some(entry.taken as i128), Some(entry.fetched as i128)]),
        None => rows.push_numbers(&[None, None]),
    }
}

// Appends the line and the address of the word that was killed, and whether it was squashed.
fn push_killed(rows: &mut Rows, row: &Row, places: &Places) {
    match row.killed() {
        Some((address, squashed)) => rows.push_numbers(&[
            Some(places.line_at(address) as i128),
            Some(address as i128),
            Some(squashed as i128),
        ]),
        None => rows.push_numbers(&[None, None, None]),
    }
}

// Appends how a run ended. A truth is 1 or 0.
fn push_ending(rows: &mut Rows, sweep: &Sweep, row: &Row) {
    rows.push_numbers(&[
        Some(row.halted as i128),
        Some(row.cycles as i128),
        signed(sweep.cost(row)),
        Some(row.same_console as i128),
    ]);
}

// Appends the row of a run.
fn push_row(rows: &mut Rows, source: &str, sweep: &Sweep, row: &Row, places: &Places) {
    rows.push_name(source);
    push_requests(rows, row);
    push_entry(rows, row);
    rows.push_numbers(&[signed(row.wait())]);
    push_killed(rows, row, places);
    push_ending(rows, sweep, row);
    rows.end();
}

/// The runs of a sweep as CSV: a row of names, and a row for each run.
pub fn sweep_csv(
    alloc: Global,
    source: &str,
    sweep: &Sweep,
    places: &Places,
) -> Result<Vec<u8>, Memory> {
    let mut rows = Rows::new(alloc);
    rows.push_names(&COLUMNS);
    for row in sweep.rows.iter() {
        push_row(&mut rows, source, sweep, row, places);
    }
    rows.into_bytes()
}
