//! Runs of a machine, and what is printed of them.
#![tactic(auto)]

mod cursor;
mod driving;
mod observing;
mod registers;
mod reports;
mod traces;

pub use cursor::Cursor;
pub use driving::{Driven, drive};
pub use mx_io::Memory;
pub use observing::{Observer, Reached, observe};
pub use registers::registers_of;
pub use reports::{Dump, push_counts, report};
pub use traces::trace_line;
