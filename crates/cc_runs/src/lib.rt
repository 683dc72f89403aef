//! The command that executes a compiler's assembly by its semantics: its words, the files that it reads, what it prints.
#![tactic(auto)]

mod execution;
mod message;
mod top;
mod words;

pub use execution::{Executed, Fault, execute};
pub use top::{Ended, execute_files};
