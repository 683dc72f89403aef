//! The names of stages, and the cells of rows.
ghost use Rattle.std.specs.Prelude.{◌≡◌, ◌-◌, ◌∷◌, [], codes, nat_lt, slice_get, slice_index_or, unwrap_or, if◌then◌else◌};

use lab_draw::{Cell, Row};

/// The name of a stage by its number.
pub fn stage_name(number: u8) -> &'static str
    ensures { result.now ≡ unwrap_or (slice_get (codes "IF" ∷ codes "RF" ∷ codes "ALU" ∷ codes "MEM" ∷ []) number) (codes "WB") }
{
    match number {
        0 => "IF",
        1 => "RF",
        2 => "ALU",
        3 => "MEM",
        _ => "WB",
    }
}

/// What a row shows in the frame of a place.
pub fn cell_of(row: &Row, place: usize) -> Cell
    ensures { result ≡ (if nat_lt place row.now.begins then Cell.Nothing else slice_index_or row.now.cells.items (place - row.now.begins) Cell.Nothing) }
{
    match place.checked_sub(row.begins) {
        Some(k) => match row.cells.get(k) {
            Some(cell) => *cell,
            None => Cell::Nothing,
        },
        None => Cell::Nothing,
    }
}

// The place behind a row's last cell.
fn end_of(row: &Row) -> usize {
    row.begins.saturating_add(row.cells.len())
}

/// How many rows at the front end before a place.
pub fn ended_before(rows: &[Row], place: usize) -> usize {
    let mut ended = 0usize;
    for row in rows {
        if end_of(row) >= place {
            return ended;
        }
        ended = ended.saturating_add(1);
    }
    ended
}

/// Whether a row shows something at all.
pub fn is_shown(row: &Row) -> bool {
    for cell in row.cells.iter() {
        if *cell != Cell::Nothing {
            return true;
        }
    }
    false
}

/// The rows behind the first ones.
pub fn without(rows: &[Row], count: usize) -> &[Row] {
    &rows[count.min(rows.len())..]
}
