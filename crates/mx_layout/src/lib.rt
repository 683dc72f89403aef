//! Where the blocks of a source stand, each as the plan that is taken for it.
#![tactic(auto)]

mod addresses;
mod choosing;
mod error;
mod layout;
mod reaching;

pub use error::LinkError;
pub use layout::{Layout, lay_out};
