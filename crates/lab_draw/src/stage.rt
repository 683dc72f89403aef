//! What a frame shows of a fetch.
ghost use Rattle.std.specs.Prelude.{◌≡◌, ◌-◌, ◌&&◌, leb, min, ℕ, List};
ghost use Rattle.mx_turn.specs.Program.{Program};
ghost use Rattle.lab_draw.specs.Cells.{stage_at, cell_of, cell_at};
ghost use Rattle.lab_draw.specs.Frames.{IsFrame};
ghost use Rattle.lab_draw.specs.Stages.{by_number, stage_in, cell_in};

use crate::{Cell, Frame};
use mx_turn::{Latches, Stage};

// A stage by its number.
fn by_number(shown: &Latches, number: u64) -> Stage
    ensures { result ≡ by_number number shown.now }
{
    match number {
        0 => shown.fetch,
        1 => shown.rf,
        2 => shown.alu,
        3 => shown.mem,
        4 => shown.wb,
        _ => Stage::Empty,
    }
}

// The stage that a frame has for a fetch.
fn shown_stage(frame: &Frame, fetch: u64) -> Stage
    ensures { result ≡ stage_in frame.now fetch }
{
    if frame.cycled.stalled || frame.turn < fetch {
        Stage::Empty
    } else {
        by_number(&frame.shown, frame.turn - fetch)
    }
}

/// The stage that holds a fetch in a frame, with its marks as the turn began; empty where none does. Fetches are
/// numbered from 0.
pub(crate) fn stage_in(frame: &Frame, fetch: u64) -> Stage
    ensures shown { result ≡ stage_in frame.now fetch }
    ensures defined { (p : Program) (requests : List ℕ) (n : ℕ) → IsFrame p requests n frame.now → result ≡ stage_at p requests fetch n }
{
    shown_stage(frame, fetch)
}

// How many turns ago a fetch was the newest one; 5 for more than 4.
fn age(turn: u64, fetch: u64) -> u8
    ensures { result ≡ min 5 (turn - fetch) }
{
    turn.saturating_sub(fetch).min(5) as u8
}

// Whether a turn that takes an interrupt or not kills what is in a stage.
fn is_killed(taken: bool, number: u8) -> bool
    ensures { result ≡ (taken && leb number 2) }
{
    taken && number <= 2
}

// A stage by its number, in a turn that takes an interrupt or not.
fn cell_of(taken: bool, number: u8, stage: Stage) -> Cell
    ensures { result ≡ cell_of taken number stage }
{
    let killed = is_killed(taken, number);
    match stage {
        Stage::Empty => Cell::Nothing,
        Stage::Live(_) => {
            if killed {
                Cell::Killed(number)
            } else {
                Cell::Live(number)
            }
        }
        Stage::Squashed(_) => {
            if killed {
                Cell::Killed(number)
            } else {
                Cell::Squashed(number)
            }
        }
    }
}

// What a frame shows of a fetch that it does not wait for.
#[tactic(auto, using(crate::proofs::Cells::cell_by_age))]
fn held_cell(frame: &Frame, fetch: u64) -> Cell
    ensures { result ≡ cell_of frame.now.cycled.taken (frame.now.turn - fetch) (stage_in frame.now fetch) }
{
    let stage = shown_stage(frame, fetch);
    cell_of(frame.cycled.taken, age(frame.turn, fetch), stage)
}

// What a frame shows of a fetch.
fn shown_cell(frame: &Frame, fetch: u64) -> Cell
    ensures { result ≡ cell_in frame.now fetch }
{
    if frame.cycled.stalled && fetch == frame.turn {
        Cell::Waits
    } else {
        held_cell(frame, fetch)
    }
}

/// What a frame shows of a fetch. Fetches are numbered from 0.
pub(crate) fn cell_in(frame: &Frame, fetch: u64) -> Cell
    ensures shown { result ≡ cell_in frame.now fetch }
    ensures defined { (p : Program) (requests : List ℕ) (n : ℕ) → IsFrame p requests n frame.now → result ≡ cell_at p requests fetch n }
{
    shown_cell(frame, fetch)
}
