//! The arguments of the analysis commands: which commands and options there are, what the arguments of one say, and what goes to
//! standard error where they are wrong.
#![tactic(auto)]

mod choices;
mod given;
mod reading;
mod table;
mod words;
mod wrong;

pub use reading::{CommandLine, command_line};
pub use words::parse_words;
pub use wrong::usage_text;
