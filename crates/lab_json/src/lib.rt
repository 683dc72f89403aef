//! Texts in JSON, as they are written.
#![tactic(auto)]

mod document;
mod value;

pub use document::Document;
pub use value::Value;
