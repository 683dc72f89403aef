//! Cases in files: each is a line that holds its own answer, which comes from outside.
#![tactic(auto)]

mod cases;
mod files;
mod lines;
mod words;

pub use cases::{Cases, compare, compare_all};
pub use files::{stored, stored_shelf, wanted, wanted_text, words_of};
pub use lines::text_of_lines;
pub use words::{answered, before, behind, halves, number};
