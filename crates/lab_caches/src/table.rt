//! Caches as a table.
use super::study::{CacheRow, Study};
use lab_terms::{Geometry, SHIPPED_CACHE};
use lab_writer::{Ratio, Writer};
use std::alloc::{AllocError, Global};

/// The head of the table.
const HEAD: &str =
    "   words  sets  ways  line  brings  penalty     misses  of fetches      cycles     CPF\n";

/// What stands in place of a share or a ratio where there is none.
const NONE: &str = "-";

// Appends a column with a part of a whole in per cent; `-` where there is no whole.
fn push_share(table: &mut Writer, part: u64, whole: u64) {
    table.push_ratio(Ratio::FinePercent(part, whole), 10, "");
    table.push_str(if whole == 0 { NONE } else { "%" });
}

// Appends what a cache is. That of the machine has a mark.
fn push_geometry(table: &mut Writer, geometry: Geometry) {
    let numbers = [
        (geometry.words(), 6),
        (u64::from(geometry.sets), 5),
        (u64::from(geometry.ways), 5),
        (u64::from(geometry.line), 5),
        (u64::from(geometry.brings), 7),
        (u64::from(geometry.penalty), 8),
    ];
    table.push(if geometry == SHIPPED_CACHE { '*' } else { ' ' });
    table.push_columns(&numbers);
}

// Appends a row.
fn push_row(table: &mut Writer, row: &CacheRow, fetches: u64) {
    push_geometry(table, row.geometry);
    table.push_columns(&[(row.misses, 10)]);
    push_share(table, row.misses, fetches);
    table.push_columns(&[(row.cycles, 11)]);
    table.push_ratio(Ratio::Plain(row.cycles, fetches), 7, NONE);
    table.push('\n');
}

// Appends how the run ended, and what it cost.
fn push_sums(table: &mut Writer, study: &Study) {
    let counts = &study.counts;
    table.push_str("* the machine's own cache\n");
    table.push_str(if study.halted {
        "halted\n"
    } else {
        "out of budget\n"
    });
    table.push_numbers(
        &["cycles ", "\nfetches ", "\nmisses ", "\n"],
        &[counts.cycles, counts.fetches, counts.misses],
    );
}

/// Caches as a table: the misses of each, and the cycles that the fetches of the run take with it.
pub fn caches_text(alloc: Global, study: &Study) -> Result<Vec<u8>, AllocError> {
    let mut table = Writer::new(alloc);
    table.push_str(HEAD);
    for row in study.rows.iter() {
        push_row(&mut table, row, study.counts.fetches);
    }
    push_sums(&mut table, study);
    table.into_bytes()
}
