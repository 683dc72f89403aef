//! The shortest plan of a small block.
#![tactic(auto)]

mod laws;
mod proposer;
mod search;
mod shortest;

pub use laws::{shortest_plan_exists, valid_plan_is_visited};
pub use proposer::BestProposer;
pub use shortest::{MOST_SEARCHED, best};
