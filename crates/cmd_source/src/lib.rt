//! The source that a command reads: assembled and linked, or the reply to what is wrong with it.
#![tactic(auto)]

mod files;
mod sources;

pub use files::read_named;
pub use sources::{
    Program, assembled, linked_source, linked_text, overlong_reply, overlong_text, read_program,
    read_source,
};
