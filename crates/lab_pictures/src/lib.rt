//! Drawings of a run as pictures: texts, SVG, HTML, JSON, and the formats Kanata and VCD.
#![tactic(auto)]

mod bands;
mod document;
mod ending;
mod escape;
mod json_document;
mod konata;
mod label;
mod marks;
mod members;
mod page;
mod picture;
mod script;
mod style;
mod subject;
mod waves;

pub use bands::text;
pub use document::html;
pub use json_document::json;
pub use konata::kanata;
pub use lab_words::PlaceNames;
pub use picture::svg;
pub use subject::Subject;
pub use waves::vcd;
