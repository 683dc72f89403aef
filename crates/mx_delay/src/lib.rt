//! The machine with delay slots: it takes one word a step, a transfer goes two words late, and it has no stages, cache or
//! interrupts. Between a source's meaning and the pipelined machine stands this one, and all laws meet in it.
#![tactic(auto)]

mod laws;

pub use laws::{clean_for_fewer, console_grows, halt_stays, steps_add, watched_is_delay};
