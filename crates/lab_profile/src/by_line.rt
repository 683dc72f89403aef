//! The costs of the statements of a source, gathered by its lines.
ghost use Rattle.std.specs.Prelude.{◌≡◌, ◌<◌, ℕ, IfOk, length, slice_index};
ghost use Rattle.lab_profile.specs.Lines.{AreLineCosts, CountsLines, ChargesLines};

use crate::lines::{LineCost, NO_COST, add};
use std::alloc::{AllocError, Global};

/// The least number that is greater than that of each line.
fn lines_through(lines: &[u32]) -> usize
    ensures { (k : ℕ) → k < length lines.now → slice_index lines.now k < result }
{
    let mut end = 0;
    for line in lines {
        end = end.max(*line as usize + 1);
    }
    end
}

/// The cost of each line of a source up to the last that has a statement, by its number: that of its statements together.
/// `lines` has the line of each statement, and `costs` its cost.
pub fn costs_by_line(
    alloc: Global,
    lines: &[u32],
    costs: &[LineCost],
) -> Result<Vec<LineCost>, AllocError>
    requires { length lines.now ≡ length costs.now }
    ensures each { IfOk result (λ sums. (k : ℕ) → k < length lines.now → slice_index lines.now k < length sums.items) }
    ensures columns { IfOk result (λ sums. AreLineCosts lines.now costs.now sums.items) }
    ensures executed { IfOk result (λ sums. CountsLines lines.now costs.now sums.items) }
    ensures penalty { IfOk result (λ sums. ChargesLines lines.now costs.now sums.items) }
{
    let mut sums = vec![in alloc; NO_COST; lines_through(lines)]?;
    for at in 0..costs.len() {
        add(&mut sums, lines[at], costs[at]);
    }
    Ok(sums)
}
