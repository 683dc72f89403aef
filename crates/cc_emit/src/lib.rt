//! The lines of a translation and their text, the routines that they call, and its data.
#![tactic(auto)]

mod error;
mod limits;
mod line;
mod operand;
mod output;
mod print;
mod routines;
mod source;
mod text;
mod words;

pub use error::TranslateError;
pub use limits::{MOST_STATEMENTS, limit_statements, limit_words};
pub use line::{
    Computed, Line, Mask, Plain, Routine, Target, Transfer, Word, compute_line, is_short,
    shift_line,
};
pub use output::Output;
pub use print::{LONGEST_FILE, file_named};
pub use routines::put_routines;
pub use source::source_text;
pub use words::{Said, Writing, end_of};
