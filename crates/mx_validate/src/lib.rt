//! Valid plans of a block, and the choice between a proposal and the padded plan.
#![tactic(auto)]

mod choice;
mod padding;
pub mod rules;
mod validity;

pub use choice::{Chosen, Proposer, choose};
pub use padding::padded;
pub use validity::valid;
