//! How long the padded, the greedy and the shortest plans of a source are.
#![tactic(auto)]

mod laws;
mod lines;
mod measure;

pub use laws::lengths_are_of_plans;
pub use lines::lengths_text;
