//! What one interrupt request costs a source, in each cycle of its run in turn, or two.
mod document;
mod fields;
mod histogram;
mod interrupt;
mod places;
mod table;
mod text;

pub use document::sweep_json;
pub use fields::sweep_csv;
pub use places::{Places, places_of};
pub use text::sweep_text;
