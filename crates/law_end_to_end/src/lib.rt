//! What a source means is what the pipelined machine does on its compiled code, whatever interrupts come.
#![tactic(auto)]

mod laws;

pub use laws::{filled_run_means_its_source, run_means_its_source};
