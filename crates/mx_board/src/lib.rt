//! Data memory with its console and its input, and the cycles in which interrupts are requested.
#![tactic(auto)]

mod board;
mod requests;

pub use board::Board;
pub use mx_io::Memory;
pub use requests::{EventError, MAX_REQUESTS, Requests};
