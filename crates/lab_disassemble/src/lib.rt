//! The words of a linked source or of an image file in assembly language, each with what its place is.
#![tactic(auto)]

mod document;
mod entry;
mod images;
mod sources;
mod text;

pub use document::listing_json;
pub use entry::{Entry, Listing};
pub use images::image_listing;
pub use sources::source_listing;
pub use text::listing_text;
