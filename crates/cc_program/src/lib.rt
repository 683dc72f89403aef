//! What texts in a compiler's assembly for MIPS-I are read into: a program of symbols, functions and data (`program`, `symbols`,
//! `item`), or why they are not (`error`).
#![tactic(auto)]

mod error;
mod item;
mod program;
mod symbols;

pub use error::{Fault, ReadError, error_at};
pub use item::{
    Content, Function, Item, Object, Reference, Standing, Startup, Within, number_behind,
};
pub use program::Program;
pub use symbols::{Meaning, Symbol, Symbols};
