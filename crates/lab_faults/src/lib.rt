//! The faulty lines of a text as they are shown, with the marks under them.
#![tactic(auto)]

mod found;
mod marked;

pub use found::{Findings, MOST_LINES, Shown, check_text, line_at};
pub use marked::marks_under;
