//! Whether the lines and the data of a translation fit the source language, before they are printed.
#![tactic(auto)]

mod checks;
mod data;
mod lines;
mod names;
mod numbers;

pub use checks::{check_data, check_lines};
