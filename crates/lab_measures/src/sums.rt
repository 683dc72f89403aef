//! What rows come to together.
ghost use Rattle.std.specs.Prelude.{◌≡◌, All, IfOk, IfSome, IfNone, None, length};
ghost use Rattle.lab_measures.specs.Rows.{wait_of};
ghost use Rattle.lab_measures.specs.Spreads.{IsSpreadOf};
ghost use Rattle.lab_measures.specs.Sums.{halted_in, others_in, waits_in, costs_in, WaitsLongest};

use crate::row::Row;
use crate::spread::{Spread, spread_of};
use crate::sweep::Sweep;
use std::alloc::{AllocError, Global};

/// What some runs come to together.
#[derive(Drop)]
pub struct Sums {
    pub runs: usize,
    /// How many halted, and how many of these with another console than the undisturbed run.
    pub halted: usize,
    pub other_console: usize,
    /// How many came to the handler after their last request.
    pub interrupted: usize,
    /// How many cycles more than the undisturbed run those take that halted, where that halts.
    pub cost: Option<Spread>,
    /// How many cycles the handler is waited for.
    pub wait: Option<Spread>,
    /// The first run that waits longest.
    pub longest: Option<Row>,
}

// How many runs halted.
fn halted_in(rows: &[Row]) -> usize
    ensures { result ≡ halted_in rows.now }
{
    rows.iter().filter(|row| row.halted).count()
}

// How many runs halted with another console than the undisturbed run.
fn others_in(rows: &[Row]) -> usize
    ensures { result ≡ others_in rows.now }
{
    rows.iter()
        .filter(|row| row.halted && !row.same_console)
        .count()
}

// The waits of the runs that came to the handler.
fn waits_of(alloc: Global, rows: &[Row]) -> Result<Vec<i64>, AllocError>
    ensures { IfOk result (λ waits. waits.items ≡ waits_in rows.now) }
{
    let mut waits = Vec::new(alloc);
    for row in rows {
        if let Some(wait) = row.wait() {
            waits.push(wait)?;
        }
    }
    Ok(waits)
}

// The costs of the runs that halted, where the undisturbed run does.
fn costs_of(alloc: Global, sweep: &Sweep) -> Result<Vec<i64>, AllocError>
    ensures { IfOk result (λ costs. costs.items ≡ costs_in sweep.now) }
{
    let mut costs = Vec::new(alloc);
    for row in sweep.rows.iter() {
        if let Some(cost) = sweep.cost(row) {
            costs.push(cost)?;
        }
    }
    Ok(costs)
}

// The first run that waits longest.
fn longest_in(rows: &[Row]) -> Option<Row>
    ensures longest { IfSome result (WaitsLongest rows.now) }
    ensures none { IfNone result (All (λ row. wait_of row ≡ None) rows.now) }
{
    let mut longest: Option<Row> = None;
    let mut most = None;
    for row in rows {
        let wait = row.wait();
        if wait > most {
            (longest, most) = (Some(*row), wait);
        }
    }
    longest
}

/// What the runs of a sweep come to together.
pub fn sums_of(alloc: Global, sweep: &Sweep) -> Result<Sums, AllocError>
    ensures runs { IfOk result (λ s. s.runs ≡ length sweep.now.rows.items) }
    ensures halted { IfOk result (λ s. s.halted ≡ halted_in sweep.now.rows.items) }
    ensures other { IfOk result (λ s. s.other_console ≡ others_in sweep.now.rows.items) }
    ensures interrupted { IfOk result (λ s. s.interrupted ≡ length (waits_in sweep.now.rows.items)) }
    ensures cost { IfOk result (λ s. IsSpreadOf (costs_in sweep.now) s.cost) }
    ensures wait { IfOk result (λ s. IsSpreadOf (waits_in sweep.now.rows.items) s.wait) }
    ensures longest { IfOk result (λ s. IfSome s.longest (WaitsLongest sweep.now.rows.items)) }
    ensures none { IfOk result (λ s. IfNone s.longest (All (λ row. wait_of row ≡ None) sweep.now.rows.items)) }
{
    let rows = sweep.rows.as_slice();
    let waits = waits_of(alloc, rows)?;
    let costs = costs_of(alloc, sweep)?;
    Ok(Sums {
        runs: rows.len(),
        halted: halted_in(rows),
        other_console: others_in(rows),
        interrupted: waits.len(),
        cost: spread_of(alloc, costs.as_slice())?,
        wait: spread_of(alloc, waits.as_slice())?,
        longest: longest_in(rows),
    })
}
