//! The runs of a sweep as a table.
use super::fields::signed;
use super::interrupt::{Interrupt, interrupt_of};
use super::places::Places;
use lab_measures::{Row, Sweep};
use lab_writer::Writer;

/// The heads of the columns, behind those of the requests.
const HEAD: &str = "   taken handler    wait   line  killed         cycles    cost  console\n";

// The line of a word, if there is one.
fn line_of(interrupt: &Interrupt) -> Option<i128> {
    if interrupt.line == 0 {
        None
    } else {
        Some(interrupt.line as i128)
    }
}

// Appends how the last request of a run became an interrupt, and the word that was killed, with a mark where it was squashed.
fn push_interrupt(table: &mut Writer, interrupt: &Interrupt) {
    table.push_cell(Some(interrupt.taken as i128), 7);
    table.push_cell(Some(interrupt.handler as i128), 7);
    table.push_cell(Some(interrupt.wait as i128), 7);
    table.push_cell(line_of(interrupt), 6);
    table.push_str("  ");
    table.push_address(interrupt.address);
    table.push_str(if interrupt.squashed { "*" } else { " " });
}

// Appends the same, or `-` in each column.
fn push_entry(table: &mut Writer, row: &Row, places: &Places) {
    match interrupt_of(row, places) {
        Some(interrupt) => push_interrupt(table, &interrupt),
        None => table.push_str("       -       -       -      -  -          "),
    }
}

// Appends the cycles of the requests of a run.
fn push_requests(table: &mut Writer, row: &Row) {
    table.push_right(row.first as i128, 7);
    if let Some(second) = row.second {
        table.push_cell(Some(second as i128), 7);
    }
}

// How a run ended, which ends its row.
fn ending_of(row: &Row) -> &'static str {
    match (row.halted, row.same_console) {
        (false, _) => "  out of budget\n",
        (true, true) => "  same\n",
        (true, false) => "  other\n",
    }
}

// Appends a run.
fn push_row(table: &mut Writer, sweep: &Sweep, row: &Row, places: &Places) {
    push_requests(table, row);
    push_entry(table, row, places);
    table.push_cell(Some(row.cycles as i128), 10);
    table.push_cell(signed(sweep.cost(row)), 7);
    table.push_str(ending_of(row));
}

/// Appends the runs of a sweep.
pub(crate) fn push_rows(table: &mut Writer, sweep: &Sweep, places: &Places) {
    table.push_str(if sweep.is_pairs {
        "\n  first  second"
    } else {
        "\nrequest"
    });
    table.push_str(HEAD);
    for row in sweep.rows.iter() {
        push_row(table, sweep, row, places);
    }
}
