//! What an interrupt saves: the three fetches behind the word that commits, and the mode.
#![tactic(auto)]

mod chain;
mod fetched;
mod psw;

pub use chain::Chain;
pub use fetched::Fetched;
pub use psw::{Mode, Psw};
