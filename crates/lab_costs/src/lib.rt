//! What a run of a source cost, told by its lines, its labels or the lines of C that it was made from: as a text, as JSON, and
//! in the format of callgrind.
#![tactic(auto)]

mod document;
mod events;
mod grouping;
mod rows;
mod shown;
mod spent;
mod subject;
mod text;

pub use document::profile_json;
pub use events::callgrind;
pub use grouping::By;
pub use subject::Subject;
pub use text::profile_text;
