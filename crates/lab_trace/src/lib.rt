//! A run as a trace that another program may replay: a JSON text a line.
#![tactic(auto)]

mod committing;
mod running;
mod turn;

pub use running::{Given, Traced, trace_of};
