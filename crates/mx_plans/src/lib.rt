//! Plans from a file: what its lines say, which of them are valid, and the program that is linked by them.
#![tactic(auto)]

mod copies;
mod file;
mod laws;
mod linking;
mod mark;
mod pieces;
mod printing;
mod proposer;
mod rule;

pub use copies::copy_verdicts;
pub use file::{PlanError, PlanFault, PlanLine, read_marks, read_plans};
pub use laws::{copies_follow_lines, greedy_plan_is_printed, rules_are_of_valid_plans};
pub use linking::{lay_planned, link_lines, link_planned_plain};
pub use mark::Mark;
pub use pieces::first_piece;
pub use printing::{print_plans, push_plan};
pub use rule::{Rule, first_broken_rule};
