//! The texts of the laboratory, written piece by piece: only who asks for the bytes hears that there was no memory for them.
#![tactic(auto)]

mod columns;
mod ratio;
mod writer;

pub use ratio::Ratio;
pub use writer::Writer;
