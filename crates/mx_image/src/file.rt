//! What an image file keeps.
use mx_code::Image;

/// A linked program with what is kept beside its words.
#[derive(Debug, PartialEq, Eq, Drop)]
pub struct ImageFile {
    /// The words.
    pub image: Image,
    /// Whether the source asks for an input.
    pub input: bool,
    /// The code address of each statement of the source, then that of its end; empty where they are not kept.
    pub links: Vec<u32>,
}
