//! What each word of the code costs in a run, and the same by the lines of its source.
#![tactic(auto)]

mod by_line;
mod calling;
mod columns;
mod laws;
mod lines;
mod piped;
mod running;
mod spent;
mod tally;

pub use by_line::costs_by_line;
pub use calling::{Called, Calls, calls_of};
pub use columns::Column;
pub use laws::{lines_follow_statements, sums_are_counts};
pub use lines::{LineCost, cost_at, line_costs, total};
pub use piped::profile_of;
pub use running::profile;
pub use spent::Spent;
pub use tally::{Profile, Tally};
