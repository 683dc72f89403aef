//! The translation of a compiler's assembly for MIPS-I into the source language.
//!
//! The texts are read into a program (`cc_reader`). Then each function is looked over as a whole, which leaves a plan for each
//! of its statements (`cc_plan`), and each statement is translated by itself and its plan (`statements`), operations on
//! registers alone by `cc_operations`, loads and stores by `cc_accesses`. The routines that it calls and the data follow (`cc_emit`).
#![tactic(auto)]

mod functions;
mod statements;
mod translating;

pub use cc_emit::TranslateError;
pub use translating::{lines_of, translate};
