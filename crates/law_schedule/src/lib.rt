//! What linking with the list scheduler keeps.
#![tactic(auto)]

mod laws;

pub use laws::{greedy_is_kept, greedy_layout_exists, scheduler_exists, scheduler_links};
