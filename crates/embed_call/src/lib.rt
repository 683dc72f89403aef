//! `command` over files in memory: what a call from another language is answered.
#![tactic(auto)]

mod call;
mod ended;
mod outcome;
mod quiet_shelf;
mod target;
mod text_sink;
mod words;

pub use call::Call;
pub use ended::{CallEnd, CallFault, end_of, run_on_shelf};
pub use outcome::{MEMORY, NOT_TEXT, Outcome, TOO_SHORT, answer_call};
pub use quiet_shelf::QuietShelf;
pub use text_sink::TextSink;
