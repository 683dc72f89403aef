//! The blocks of a source: their instructions, what depends on what, and how long their plans are, with a bound that no valid plan
//! is below.
#![tactic(auto)]

mod bound;
mod document;
mod edges;
mod facts;
mod kinds;
mod laws;
mod lengths;
mod picture;
mod registers;
mod report;
mod statement;
mod text;

pub use bound::lower_bound;
pub use document::blocks_json;
pub use facts::{Edge, Facts, Row, Successors};
pub use kinds::{Kind, dependence};
pub use laws::no_plan_is_shorter;
pub use lengths::{Lengths, lengths_of};
pub use picture::blocks_dot;
pub use report::source_blocks;
pub use text::blocks_text;
