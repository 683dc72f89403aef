//! What other caches of code words would make of a run.
#![tactic(auto)]

mod chart;
mod document;
mod laws;
mod study;
mod table;

pub use chart::caches_svg;
pub use document::caches_json;
pub use laws::runs_count_fetches;
pub use study::{CacheRow, Study, study_of};
pub use table::caches_text;
