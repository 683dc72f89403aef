//! A source by the plans of a file: which of them are rejected, the report of its run, and its figures.
#![tactic(auto)]

mod copies;
mod figures;
mod linking;
mod planned;
mod rejections;
mod verdicts;

pub use figures::{PlannedFigures, figures_by_plans};
pub use linking::{LinkedTold, link_told};
pub use planned::planned_reply;
