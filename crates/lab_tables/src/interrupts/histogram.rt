//! How numbers are spread, as a picture of lines with bars.
use lab_measures::{Bin, Spread};
use lab_writer::Writer;
use std::alloc::{AllocError, Global};

/// The most lines of a histogram, and the longest bar of one.
const MOST_LINES: u32 = 24;

const LONGEST_BAR: u64 = 40;

// How many numbers a line takes together: one, unless there are too many.
fn width_of(spread: &Spread) -> i64 {
    if spread.bins.len() <= MOST_LINES as usize {
        return 1;
    }
    let apart = spread.greatest.saturating_sub(spread.least);
    (apart / MOST_LINES as i64).saturating_add(1)
}

// Appends the numbers that a line takes together, which begin with one.
fn push_numbers(text: &mut Writer, first: i64, width: i64) {
    text.push_right(first as i128, 7);
    if width > 1 {
        let last = first.saturating_add(width.saturating_sub(1));
        text.push_str(" to ");
        text.push_right(last as i128, 7);
    }
}

// How long the bar of so many runs is, where the longest stands for this many.
fn bar_of(runs: u64, most: u64) -> u64 {
    let rest = runs.saturating_mul(LONGEST_BAR).saturating_sub(1);
    rest.checked_div(most).unwrap_or(0).saturating_add(1)
}

// Appends a line: numbers from one on, and how many runs have them.
fn push_bin(text: &mut Writer, bin: &Bin, width: i64, most: u64) {
    push_numbers(text, bin.number, width);
    text.push_cell(Some(bin.runs as i128), 9);
    text.push_str("  ");
    for _sign in 0..bar_of(bin.runs, most) {
        text.push('#');
    }
    text.push('\n');
}

// Adds runs to the line of this number, which is the last, or behind the last.
fn add_runs(lines: &mut Vec<Bin>, number: i64, runs: u64) -> Result<(), AllocError> {
    match lines.last_mut() {
        Some(line) if line.number == number => {
            line.runs = line.runs.saturating_add(runs);
            Ok(())
        }
        _ => {
            lines.push(Bin { number, runs })?;
            Ok(())
        }
    }
}

// The first number of the line that a number belongs to.
fn line_of(number: i64, least: i64, width: i64) -> i64 {
    let behind = number.saturating_sub(least);
    number.saturating_sub(behind.checked_rem(width).unwrap_or(0))
}

// The numbers of a spread, so many taken together, with how many runs have them.
fn together(alloc: Global, spread: &Spread, width: i64) -> Result<Vec<Bin>, AllocError> {
    let mut lines: Vec<Bin> = Vec::new(alloc);
    for bin in spread.bins.iter() {
        add_runs(
            &mut lines,
            line_of(bin.number, spread.least, width),
            bin.runs,
        )?;
    }
    Ok(lines)
}

// The most runs of a line.
fn most_in(bins: &[Bin]) -> u64 {
    let mut most = 0;
    for bin in bins {
        most = bin.runs.max(most);
    }
    most
}

// Appends the lines.
fn push_bins(text: &mut Writer, bins: &[Bin], width: i64) {
    let most = most_in(bins);
    for bin in bins {
        push_bin(text, bin, width, most);
    }
}

// The head of a histogram, behind its name.
fn head_of(width: i64) -> &'static str {
    if width > 1 {
        "                 runs\n"
    } else {
        "      runs\n"
    }
}

// Appends a histogram of these numbers, under this name.
fn push_spread(text: &mut Writer, name: &str, spread: &Spread) {
    let width = width_of(spread);
    text.push_str(name);
    text.push_str(head_of(width));
    if let Some(bins) = text.take(together(text.alloc(), spread, width)) {
        push_bins(text, &bins, width);
    }
}

/// Appends a histogram, under this name, where there are numbers.
pub(crate) fn push_histogram(text: &mut Writer, name: &str, spread: &Option<Spread>) {
    if let Some(spread) = spread {
        push_spread(text, name, spread);
    }
}
