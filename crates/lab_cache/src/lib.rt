//! Caches of any geometry, and how many fetches miss in each.
#![tactic(auto)]

mod alike;
mod all;
mod cache;
mod laws;
mod quick;
mod set;

pub use all::{AllCaches, Counted};
pub use laws::machine_agrees;
