//! The list scheduler: the greedy plan of a block.
#![tactic(auto)]

mod choosing;
mod ending;
mod laws;
mod proposer;

pub use laws::{greedy_plan_exists, greedy_plans_exist};
pub use proposer::ListProposer;
