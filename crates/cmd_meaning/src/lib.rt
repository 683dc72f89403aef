//! What is told of a source's meaning.
#![tactic(auto)]

mod steps;
mod told;

pub use steps::{Ending, Progress, run_steps};
pub use told::{line_at, meaning_reply, why_text};
