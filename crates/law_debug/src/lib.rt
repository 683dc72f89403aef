//! The stops of a machine that runs linked code are the visits of its source's meaning.
#![tactic(auto)]

mod laws;

pub use laws::stops_are_visits;
