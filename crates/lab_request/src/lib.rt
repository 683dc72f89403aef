//! A request of the workbench, from the bytes of its body to the bytes of its answer: which fields a body may have, what they
//! ask of which command, and the document of how it ended.
#![tactic(auto)]

mod answer;
mod bytes;
mod checks;
mod command;
mod commands;
mod document;
mod fault;
mod field;
mod files;
mod first;
mod refusal;
mod values;
mod words;

pub use answer::{Response, answer_body};
pub use command::WorkbenchCommand;
pub use commands::{CommandEnd, Commands};
pub use fault::{Fault, Wrong};
pub use field::Field;
