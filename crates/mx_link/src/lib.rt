//! Linked programs: an image, the link map, and where each word comes from.
#![tactic(auto)]

mod code;
mod imaging;
mod inst;
mod linked;
mod linking;
mod origin;

pub use code::Slots;
pub use imaging::{image_wanted, laid_out, link_laid};
pub use linked::{Linked, Origin};
pub use linking::{link, link_plain};
pub use mx_layout::LinkError;
