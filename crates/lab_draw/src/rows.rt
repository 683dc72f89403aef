//! The rows of a drawing.
ghost use Rattle.std.specs.Prelude.{◌≡◌, ◌≤◌, ◌+◌, ◌<◌, All, IfOk, IfSome, IfNone, OnOk, Some, ℕ, List, map, take, length, slice_get, suc};
ghost use Rattle.mx_turn.specs.Program.{Program};
ghost use Rattle.lab_draw.specs.Cells.{cells_from};
ghost use Rattle.lab_draw.specs.Coming.{HaveCome};
ghost use Rattle.lab_draw.specs.Frames.{AreFrames};
ghost use Rattle.lab_draw.specs.Stages.{cell_in as frame_cell};
ghost use Rattle.lab_draw.specs.Rows.{address_of, earlier, first_address, first_come, first_fetch, IsRow, AreRows};

use crate::stage::{cell_in, stage_in};
use crate::{Cell, Frame};
use mx_io::Memory;
use mx_turn::Stage;
use std::alloc::{AllocError, Global};

/// How many frames a row has at most: five turns, of three cycles each at most.
pub const SPAN: usize = 15;

/// What one fetch does.
#[derive(Drop)]
pub struct Row {
    /// Its number; the first fetch of a run is 0.
    pub fetch: u64,
    /// Its address; none where the frames end before its turn.
    pub address: Option<u32>,
    /// The place of the first of its cells among the frames: of the first one that has come to its turn.
    pub begins: usize,
    /// What the frames from there on show of it.
    pub cells: Vec<Cell>,
}

// The address in a stage.
fn address_of(stage: Stage) -> Option<u32>
    ensures { result ≡ address_of stage }
{
    match stage {
        Stage::Empty => None,
        Stage::Live(address) | Stage::Squashed(address) => Some(address),
    }
}

// The first of two addresses that is known.
fn earlier(known: Option<u32>, later: Option<u32>) -> Option<u32>
    ensures { result ≡ earlier known later }
{
    match known {
        Some(address) => Some(address),
        None => later,
    }
}

// The address of a fetch.
fn first_address(frames: &[Frame], fetch: u64) -> Option<u32>
    ensures { result ≡ first_address fetch frames.now }
{
    frames.iter().fold(None, |known, frame| {
        earlier(known, address_of(stage_in(frame, fetch)))
    })
}

// The cells of a fetch.
fn cells_of(alloc: Global, frames: &[Frame], fetch: u64) -> Result<Vec<Cell>, AllocError>
    ensures { IfOk result (λ v. v.items ≡ map (λ f. frame_cell f fetch) frames.now) }
{
    frames
        .iter()
        .map(|frame| cell_in(frame, fetch))
        .collect(alloc)
}

// The first frames, so many at most.
#[tactic(auto, using(crate::proofs::Recorded::first_ones))]
fn first_frames(frames: &[Frame], count: usize) -> &[Frame]
    ensures { result.now ≡ take count frames.now }
{
    &frames[..count.min(frames.len())]
}

// The row of a fetch, from a frame on.
fn row_of(alloc: Global, frames: &[Frame], fetch: u64, begins: usize) -> Result<Row, AllocError>
    requires { begins ≤ length frames.now }
    ensures row { IfOk result (λ row. first_come fetch frames.now ≡ Some begins → IsRow frames.now row) }
    ensures fetch { IfOk result (λ row. row.fetch ≡ fetch) }
    ensures begins { IfOk result (λ row. row.begins ≡ begins) }
{
    let seen = first_frames(&frames[begins..], SPAN);
    Ok(Row {
        fetch,
        address: first_address(seen, fetch),
        begins,
        cells: cells_of(alloc, seen, fetch)?,
    })
}

// Appends the row of the next fetch, which begins at the first frame that has come to its turn.
fn add_row(
    alloc: Global,
    frames: &[Frame],
    begins: usize,
    first: u64,
    fetch: u64,
    rows: &mut Vec<Row>,
) -> Result<(), AllocError>
    requires begins { begins < length frames.now }
    requires next { fetch ≡ first + length rows.old.items }
    requires come { (f : Frame) → slice_get frames.now begins ≡ Some f → fetch ≤ f.turn }
    requires so_far { HaveCome frames.now first begins rows.old.items }
    ensures so_far { OnOk result (HaveCome frames.now first begins rows.new.items) }
    ensures count { OnOk result (length rows.new.items ≡ length rows.old.items + 1) }
{
    let row = row_of(alloc, frames, fetch, begins)?;
    rows.push(row)?;
    Ok(())
}

// The fetch behind so many rows, if its turn has come.
fn next_fetch(first: u64, count: usize, turn: u64) -> Option<u64>
    ensures some { IfSome result (λ fetch. (fetch ≡ first + count) × (fetch ≤ turn)) }
    ensures none { IfNone result (turn < first + count) }
{
    match first.checked_add(count as u64) {
        Some(fetch) if fetch <= turn => Some(fetch),
        _ => None,
    }
}

// Appends the row of each fetch whose turn has come at a frame, those that are there aside.
fn push_rows(
    alloc: Global,
    frames: &[Frame],
    begins: usize,
    first: u64,
    rows: &mut Vec<Row>,
) -> Result<(), AllocError>
    requires begins { begins < length frames.now }
    requires so_far { HaveCome frames.now first begins rows.old.items }
    ensures { OnOk result (HaveCome frames.now first (suc begins) rows.new.items) }
{
    let turn = frames[begins].turn;
    'rows: while let Some(fetch) = next_fetch(first, rows.len(), turn) {
        add_row(alloc, frames, begins, first, fetch, rows)?;
    }
    Ok(())
}

// The rows from a fetch on.
#[tactic(auto, using(crate::proofs::Recorded::no_rows, crate::proofs::Recorded::have_come))]
fn rows_from(alloc: Global, frames: &[Frame], first: u64) -> Result<Vec<Row>, AllocError>
    ensures { IfOk result (λ v. AreRows frames.now first v.items) }
{
    let mut rows = Vec::new(alloc);
    for begins in 0..frames.len() {
        push_rows(alloc, frames, begins, first, &mut rows)?;
    }
    Ok(rows)
}

// The oldest fetch that may be in a stage in the first frame.
fn first_fetch(frames: &[Frame]) -> u64
    ensures { result ≡ first_fetch frames.now }
{
    match frames.first() {
        Some(frame) => frame.turn.saturating_sub(4),
        None => 0,
    }
}

/// The rows of some frames, one for each fetch from the oldest that may be in a stage in the first of them to the newest of
/// the last.
///
/// # Errors
///
/// `Memory` where there is no room for them.
#[tactic(auto, using(crate::proofs::Recorded::rows_are_defined))]
pub fn rows_of(alloc: Global, frames: &[Frame]) -> Result<Vec<Row>, Memory>
    ensures rows { IfOk result (λ v. AreRows frames.now (first_fetch frames.now) v.items) }
    ensures defined { IfOk result (λ v. (p : Program) (requests : List ℕ) (n : ℕ) → AreFrames p requests n frames.now
        → All (λ row. row.cells.items ≡ cells_from p requests row.fetch (n + row.begins) (length row.cells.items)) v.items) }
{
    match rows_from(alloc, frames, first_fetch(frames)) {
        Ok(rows) => Ok(rows),
        Err(_) => Err(Memory),
    }
}
