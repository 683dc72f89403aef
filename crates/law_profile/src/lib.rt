//! How often the machine with interrupts executes the words of clean code is how often the machine with delay slots does.
#![tactic(auto)]

mod laws;

pub use laws::{executed_is_delay, lines_are_meant, profile_is_meant};
