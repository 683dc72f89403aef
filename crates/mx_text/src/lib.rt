//! Texts: the lines of one that is read; numbers, words and lines as they are printed.
#![tactic(auto)]

mod split;
mod text;

pub use split::split_line;
pub use text::{
    push_byte, push_console, push_count, push_decimal, push_line, push_named, push_register,
    push_word, push_word_line,
};
