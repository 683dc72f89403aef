//! How the run of a source stands beside its meaning, in words.
#![tactic(auto)]

mod advice;
mod told;

pub use told::{Explained, explained_json, explained_text};
