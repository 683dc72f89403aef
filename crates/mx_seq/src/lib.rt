//! What a program means, executed one statement at a time.
#![tactic(auto)]

mod execution;
mod program;
mod registers;
mod seq;
mod user_data;

pub use execution::Stepped;
pub use mx_source::{Memory, Place, Why};
pub use seq::Seq;
