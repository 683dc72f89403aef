//! Four schedulers and one's own side by side, and runs with an interrupt request in each cycle in turn, as text, JSON and CSV.
#![tactic(auto)]

mod compare;
mod interrupts;
mod rows;

pub use compare::{
    Column, Compared, comparison_csv, comparison_json, comparison_text, comparisons_csv,
    comparisons_json, comparisons_text,
};
pub use interrupts::{Places, places_of, sweep_csv, sweep_json, sweep_text};
