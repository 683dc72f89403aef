//! The commands as one call: what the words of a command line ask for, done over any shelf and any sink.
#![tactic(auto)]

mod accepting;
mod debug;
mod from_image;
mod from_source;
mod join;
mod laws;
mod reply;
mod share;
mod system;
mod top;

pub use accepting::can_be_run;
pub use cmd_answer::Status;
pub use laws::greedy_layout_is;
pub use system::command_on_system;
pub use top::command;
