//! The command that the words of a command line ask for.
#![tactic(auto)]

mod command;
mod numbers;
mod readers;

pub use command::{Command, read_command};
