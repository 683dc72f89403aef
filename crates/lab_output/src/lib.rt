//! What a command for people puts out: on standard output, in a file, or on standard error.
#![tactic(auto)]

mod outcome;

pub use outcome::{Delivery, Destination, ExitReport, failed, put_out};
