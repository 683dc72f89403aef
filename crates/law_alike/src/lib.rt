//! Two states of the machine that differ only in what was counted and shown, and whose caches answer alike, go on alike.
#![tactic(auto)]

mod caches;
mod laws;
mod machines;

pub use laws::{equal_caches_answer_alike, states_go_on_alike, users_go_on_alike};
pub use machines::goes_on_like;
