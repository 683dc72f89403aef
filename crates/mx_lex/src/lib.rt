//! The tokens of a line of source text.
#![tactic(auto)]

mod bytes;
mod lexer;
mod numbers;
mod token;

pub use bytes::{is_allowed, name_end};
pub use lexer::Lexer;
pub use token::{Kind, LexFault, Token};
