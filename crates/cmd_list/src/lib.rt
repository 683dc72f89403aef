//! The listing of a linked program.
#![tactic(auto)]

mod laws;
mod lines;

pub use laws::layout_is_listed;
pub use lines::listing;
