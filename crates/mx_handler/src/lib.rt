//! The shipped handler, which returns to the three fetches that an interrupt killed.
#![tactic(auto)]

mod handler;
mod laws;

pub use handler::handler_source;
pub use laws::{handler_is_quiet, handler_is_shipped, handler_returns};
pub use mx_turn::SHIPPED;
