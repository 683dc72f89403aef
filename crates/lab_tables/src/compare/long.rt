//! Several comparisons as a table.
use super::schedulers::{SCHEDULERS, figures_at};
use super::several::{Compared, Sums, sums_of};
use super::table::{Cell, cycles_of, push_cells};
use lab_measures::{Comparison, Figures};
use lab_writer::Writer;
use std::alloc::{AllocError, Global};

/// The head of the column of names.
const SOURCE: &str = "source";

/// The heads of the other columns: of those whose numbers have a part in per cent, and of those behind them.
const HEAD: &str =
    "  plans      words           no-ops            slots            loads           cycles          fetches   misses  squashes\n";

/// What the sums are told under.
const ALL: &str = "all";

// How many characters a name has.
fn width_of(name: &str) -> usize {
    name.chars().count()
}

// The cells of a scheduler that have a part in per cent, beside those of the padded plans. The cycles of a run that has not
// halted are left out.
fn cells_of(figures: &Figures, padded: &Figures) -> [Cell; 5] {
    let (words, slots, loads) = (figures.words as u64, figures.transfers, figures.loads);
    [
        Some((words, padded.words as u64)),
        Some((figures.noops as u64, words)),
        Some((slots.filled_slots() as u64, slots.all() as u64)),
        Some((loads.filled as u64, loads.all as u64)),
        cycles_of(figures, padded),
    ]
}

// Appends the fetches, misses and squashes of a run, or `-` where it has not halted.
fn push_counts(table: &mut Writer, figures: &Figures) {
    if figures.halted {
        table.push_cell(Some(figures.fetches as i128), 9);
        table.push_cell(Some(figures.misses as i128), 9);
        table.push_cell(Some(figures.squashes as i128), 9);
    } else {
        table.push_str("         -         -         -");
    }
    table.push('\n');
}

// Appends a scheduler, beside the padded plans. Where a run has not halted, its columns have `-`.
fn push_scheduler(table: &mut Writer, plans: &str, figures: &Figures, padded: &Figures) {
    table.push_str("  ");
    table.push_padded(plans, 6);
    push_cells(table, &cells_of(figures, padded));
    push_counts(table, figures);
}

// Appends the four schedulers, each under this name.
fn push_schedulers(table: &mut Writer, name: &str, width: usize, comparison: &Comparison) {
    for at in 0..SCHEDULERS.len() {
        table.push_padded(name, width);
        let figures = figures_at(comparison, at);
        push_scheduler(table, SCHEDULERS[at], figures, &comparison.padded);
    }
}

// Appends of how many sources the sums of the runs are, where it is not all.
fn push_told(table: &mut Writer, halted: usize, sources: usize) {
    if halted < sources {
        table.push_numbers(
            &[
                "The sums of cycles, fetches, misses and squashes are of ",
                " of the ",
                " sources: those of which each run halted.\n",
            ],
            &[halted as u64, sources as u64],
        );
    }
}

// The sums as they are told: those of runs where there is a source of which each run halted.
fn told_sums(all: &Sums) -> Comparison {
    let told = all.halted > 0;
    let mut sums = all.figures;
    sums.padded.halted = told;
    sums.list.halted = told;
    sums.copies.halted = told;
    sums.best.halted = told;
    sums
}

// Appends the sums, and of how many sources those of the runs are.
fn push_sums(table: &mut Writer, width: usize, all: &Sums) {
    push_schedulers(table, ALL, width, &told_sums(all));
    push_told(table, all.halted, all.sources);
}

// The width of the column of names.
fn width_for(compared: &[Compared]) -> usize {
    let mut width = width_of(SOURCE);
    for one in compared {
        width = width.max(width_of(one.source));
    }
    width
}

/// Several comparisons as a table, a row for each source and scheduler, and their sums.
pub fn comparisons_text(alloc: Global, compared: &[Compared]) -> Result<Vec<u8>, AllocError> {
    let width = width_for(compared);
    let mut table = Writer::new(alloc);
    table.push_padded(SOURCE, width);
    table.push_str(HEAD);
    for one in compared {
        push_schedulers(&mut table, one.source, width, &one.comparison);
    }
    push_sums(&mut table, width, &sums_of(compared));
    table.into_bytes()
}
