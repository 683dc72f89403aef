//! Dependences among the instructions of a block.
#![tactic(auto)]

mod graph;
mod independence;

pub use graph::{Graph, with_bit};
pub use independence::{feeds, independent};
