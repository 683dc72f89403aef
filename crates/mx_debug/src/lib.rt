//! Stops of a machine where a word of its code is about to take effect.
#![tactic(auto)]

mod stop;
mod stopping;

pub use mx_io::Memory;
pub use stop::{Ending, Stop, Stopped};
pub use stopping::stops;
