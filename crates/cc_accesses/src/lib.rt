//! Loads and stores, as instructions of the machine, which has words alone.
#![tactic(auto)]

mod loads;
mod places;
mod statements;
mod stores;
mod unaligned;

pub use places::{is_misaligned, is_null};
pub use statements::{call_at, jump_at, load_statement, store_statement};
