//! Linked code executes the words of a statement as often as its source's meaning is at that statement.
#![tactic(auto)]

mod laws;

pub use laws::{linked_blocks_count, linked_code_counts};
