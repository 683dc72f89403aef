//! The commands for people who look: how each is answered, and the top call.
#![tactic(auto)]

mod blocks;
mod certificates;
mod check;
mod compare;
mod disassemble;
mod images;
mod own;
mod plans;
mod refusal;
mod top;

pub use cmd_answer::Status;
pub use lab_failure::{Cause, Causes, Unknown};
pub use lab_output::ExitReport;
pub use top::lab;
