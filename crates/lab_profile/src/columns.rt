//! Columns of costs.
ghost use Rattle.std.specs.Prelude.{◌≡◌};
ghost use Rattle.lab_profile.specs.Columns.{number_in};

use crate::LineCost;

/// A column by which rows are put in order: those of the greatest number first.
#[derive(Clone, Copy)]
pub enum Column {
    /// The order of the source.
    Line,
    Count,
    Cycles,
    /// The cycles that it causes.
    Caused,
    Cpi,
    Stalls,
    Noops,
    Squashed,
    Killed,
}

/// How many parts of a cycle for each statement are told apart.
const PARTS: u64 = 1000;

impl Column {
    /// What a cost has in the column.
    pub fn number(self, cost: &LineCost) -> u64
        ensures { result ≡ number_in self cost.now }
    {
        match self {
            Column::Line => 0,
            Column::Count => cost.executed,
            Column::Cycles => cost.cycles,
            Column::Caused => cost.caused(),
            Column::Cpi => {
                let parts = cost.caused().saturating_mul(PARTS);
                parts.checked_div(cost.executed).unwrap_or(0)
            }
            Column::Stalls => cost.stalls,
            Column::Noops => cost.noops,
            Column::Squashed => cost.cancelled,
            Column::Killed => cost.killed,
        }
    }
}
