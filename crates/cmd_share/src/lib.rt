//! Runs of two programs that share the machine, and what is printed of them.
#![tactic(auto)]

mod runs;

pub use runs::run_shared;
