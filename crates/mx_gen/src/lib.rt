//! Sources made from a number.
#![tactic(auto)]

mod draft;
mod generator;

pub use generator::generate;
pub use mx_source::{Memory, Source};
