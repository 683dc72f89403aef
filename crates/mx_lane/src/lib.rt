//! Turns without a request, many at once: the fetches in the stages and the registers alone, from commit to commit.
#![tactic(auto)]

mod lane;
mod queue;
mod turns;
mod window;

pub use lane::Lane;
