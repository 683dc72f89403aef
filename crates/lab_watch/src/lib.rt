//! A machine that reports the progress of its run.
#![tactic(auto)]

mod pipes;
mod terminal;
mod watched;

pub use pipes::watched_pipe;
pub use terminal::OnTerminal;
pub use watched::{Unwatched, Watched, Watcher};
