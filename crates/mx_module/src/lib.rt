//! Programs of several texts: modules, which import and export labels, joined to one source.
#![tactic(auto)]

mod error;
mod exports;
mod imports;
mod joiner;
mod link;
mod link_faults;
mod module;
mod names;
mod plain;
mod program;

pub use error::{JoinError, JoinFault};
pub use joiner::Joiner;
pub use link::LinkKind;
pub use mx_io::Memory;
