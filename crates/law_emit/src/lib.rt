//! The text of a translation's code reads as the statements and the labels of its lines.
#![tactic(auto)]

mod laws;

pub use laws::{
    code_reads_back, labels_are_found, line_reads_back, routines_fit, source_reads_back,
    translation_reads_back,
};
