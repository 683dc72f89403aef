//! Basic blocks of a source, and the plans in which their instructions may stand.
#![tactic(auto)]

mod block;
mod forms;
mod laws;
mod splitting;

pub use block::{Block, End, Item, Plan};
pub use laws::{blocks_exist, leaders_begin};
pub use mx_source::Memory;
pub use splitting::blocks;
