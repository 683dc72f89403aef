//! Sources: what an assembler text reads as.
#![tactic(auto)]

mod group;
mod grouping;
mod laws;
mod mnemonic;
mod name;
mod print;
mod source;
mod statement;
mod text;

pub use laws::names_are_their_bytes;
pub use mnemonic::{branch_name, operation_name};
pub use mx_io::Memory;
pub use mx_isa::Place;
pub use name::Name;
pub use source::Source;
pub use statement::{Label, Statement, Value, Why};
