//! Runs of an image on the machine, with the files that their options name.
#![tactic(auto)]

mod files;
mod runs;
mod simulated;

pub use files::{RunInputs, read_input, read_requests, read_run_files};
pub use runs::{if_asked, run_image};
pub use simulated::{simulate, simulate_on, status_of};
