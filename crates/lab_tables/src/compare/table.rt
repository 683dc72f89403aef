//! A comparison as a table.
use super::schedulers::{SCHEDULERS, figures_at};
use super::several::Column;
use lab_measures::{Comparison, Figures};
use lab_writer::{Ratio, Writer};
use std::alloc::{AllocError, Global};

/// How wide the column of names is, and each other one: a number, and its part in per cent.
const NAMES: usize = 21;

const COLUMN: usize = 17;

/// What the rows are named by, in a column of its own.
static ROWS: [&str; 15] = [
    "words                ",
    "  no-ops             ",
    "  copies             ",
    "branch slots         ",
    "  from before        ",
    "  target, squashed   ",
    "  target, always     ",
    "  no-op              ",
    "load slots           ",
    "  filled             ",
    "cycles               ",
    "  fetches            ",
    "  misses             ",
    "  squashes           ",
    "rejected plans       ",
];

/// A number and the whole that it is a part of, 0 where it has none; nothing where there is no number.
pub(crate) type Cell = Option<(u64, u64)>;

/// The cycles of a run and those that they are a part of, 0 where these are not known. A run that has not halted has none.
pub(crate) fn cycles_of(figures: &Figures, padded: &Figures) -> Cell {
    match (figures.halted, padded.halted) {
        (false, _) => None,
        (true, false) => Some((figures.cycles, 0)),
        (true, true) => Some((figures.cycles, padded.cycles)),
    }
}

/// The cells of plans, beside the padded ones.
pub(crate) fn column_of(figures: &Figures, padded: &Figures) -> [Cell; 15] {
    let (words, slots, loads) = (figures.words as u64, figures.transfers, figures.loads);
    let all = slots.all() as u64;
    [
        Some((words, padded.words as u64)),
        Some((figures.noops as u64, words)),
        Some((figures.copies as u64, words)),
        Some((all, 0)),
        Some((slots.before as u64, all)),
        Some((slots.target_squashed as u64, all)),
        Some((slots.target as u64, all)),
        Some((slots.noops as u64, all)),
        Some((loads.all as u64, 0)),
        Some((loads.filled as u64, loads.all as u64)),
        cycles_of(figures, padded),
        Some((figures.fetches, 0)),
        Some((figures.misses, 0)),
        Some((figures.squashes, 0)),
        Some((figures.rejected as u64, 0)),
    ]
}

// Appends a number and its part of a whole in per cent, rounded to a tenth, which is left out where there is no whole.
fn push_number(table: &mut Writer, part: u64, whole: u64) {
    table.push_cell(Some(part as i128), 9);
    table.push_ratio(Ratio::Percent(part, whole), 5, "");
    table.push_str(if whole == 0 { " " } else { "%" });
}

/// Appends cells. One without a number is `-`.
pub(crate) fn push_cells(table: &mut Writer, cells: &[Cell]) {
    for cell in cells {
        match cell {
            Some((part, whole)) => push_number(table, *part, *whole),
            None => table.push_str("         -       "),
        }
    }
}

// The cell of plans in a row.
fn cell_at(figures: &Figures, padded: &Figures, row: usize) -> Cell {
    match column_of(figures, padded).get(row) {
        Some(cell) => *cell,
        None => None,
    }
}

// Appends the cells of a row.
fn push_row(table: &mut Writer, comparison: &Comparison, columns: &[Column], row: usize) {
    let padded = &comparison.padded;
    for at in 0..SCHEDULERS.len() {
        push_cells(table, &[cell_at(figures_at(comparison, at), padded, row)]);
    }
    for column in columns {
        push_cells(table, &[cell_at(&column.figures, padded, row)]);
    }
    table.end_line();
}

// Appends a name at the right of a column.
fn push_name(table: &mut Writer, name: &str) {
    table.push_blanks(COLUMN.saturating_sub(name.len()));
    table.push_str(name);
}

// Appends the head of the table.
fn push_head(table: &mut Writer, columns: &[Column]) {
    table.push_blanks(NAMES);
    for name in &SCHEDULERS {
        push_name(table, *name);
    }
    for column in columns {
        push_name(table, column.name);
    }
    table.end_line();
}

// How many rows there are: that of the rejected plans only beside plans from files.
fn rows_of(columns: &[Column]) -> usize {
    if columns.is_empty() {
        ROWS.len() - 1
    } else {
        ROWS.len()
    }
}

// Appends a line for each rejected plan of a file, behind its name.
fn push_rejections(table: &mut Writer, column: &Column) {
    let [lines @ .., b'\n'] = column.rejections else {
        return;
    };
    for line in lines.split(|byte| *byte == b'\n') {
        table.push_parts(&[column.name, ": "]);
        table.push_bytes(line);
        table.push('\n');
    }
}

/// A comparison as a table: code words, no-ops, what stands in the slots, and the run. A run that does not halt within the
/// budget has no cycles. Plans from files have columns behind those of the schedulers, and those that are rejected a line each.
pub fn comparison_text(
    alloc: Global,
    comparison: &Comparison,
    columns: &[Column],
) -> Result<Vec<u8>, AllocError> {
    let mut table = Writer::new(alloc);
    push_head(&mut table, columns);
    for (row, name) in ROWS.iter().enumerate().take(rows_of(columns)) {
        table.push_str(*name);
        push_row(&mut table, comparison, columns, row);
    }
    for column in columns {
        push_rejections(&mut table, column);
    }
    table.into_bytes()
}
