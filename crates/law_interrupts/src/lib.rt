//! The machine with interrupts at any cycle, under the shipped handler, does on clean code what the machine with delay slots does.
#![tactic(auto)]

mod laws;

pub use laws::{
    interrupt_saves, run_gets_on, run_is_delay, undisturbed_run_gets_on, undisturbed_run_is_delay,
};
