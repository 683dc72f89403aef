//! The command that translates a compiler's assembly: its words, the files that it reads, what it prints and what it writes.
#![tactic(auto)]

mod message;
mod top;
mod words;

pub use top::cc;
