//! Image files: a linked program as bytes, in two versions.
#![tactic(auto)]

mod error;
mod fields;
mod file;
mod version_1;
mod version_2;
mod words;

pub use error::ImageError;
pub use file::ImageFile;
pub use mx_io::Memory;
pub use version_1::{read_image, write_image};
pub use version_2::{read_file, write_file};
