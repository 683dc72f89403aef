//! Why an analysis command has no answer, and what goes to standard error then.
#![tactic(auto)]

mod causes;
mod failure;
mod files;
mod message;

pub use causes::{Cause, Causes, Unknown};
pub use failure::{LabFailure, LabFile, LineFault, ReadFault};
pub use files::read_lab_file;
pub use message::{failure_text, unwritten_text};
