//! Sessions with an image that is stopped at an address, and what is printed of them.
#![tactic(auto)]

mod runs;
mod texts;

pub use runs::debug_image;
