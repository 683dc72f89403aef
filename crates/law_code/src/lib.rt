//! What the lines of a translation do in a run of its source.
#![tactic(auto)]

mod laws;

pub use laws::{code_is_placed, code_runs, instructions_run};
