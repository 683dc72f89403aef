//! The canonical text of the source that texts join as reads as that source.
#![tactic(auto)]

mod laws;

pub use laws::joined_reads_back;
