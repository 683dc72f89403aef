//! The lines of C that the lines of a source were made from.
#![tactic(auto)]

mod positions;
mod spans;

pub use positions::{Position, Positions, positions_of};
pub use spans::{Span, line_spans, lines_of, without_return};
