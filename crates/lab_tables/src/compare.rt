//! How four schedulers compare on a source, or on several.
mod document;
mod fields;
mod long;
mod schedulers;
mod several;
mod table;

pub use document::{comparison_json, comparisons_json};
pub use fields::{comparison_csv, comparisons_csv};
pub use long::comparisons_text;
pub use several::{Column, Compared};
pub use table::comparison_text;
