//! Slots of transfers that are filled with the first words of the target.
#![tactic(auto)]

mod choosing;
mod copying;
mod search;

pub use choosing::{CopyRule, copies_asked};
pub use copying::{Copied, copies, reaches};
