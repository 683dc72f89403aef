//! The machine cycle by cycle: five overlapped words, the cache's stalls, and interrupts.
#![tactic(auto)]

mod alu_stage;
mod counts;
mod decoded;
mod handler;
mod held;
mod latches;
mod laws;
mod machine;
mod mem_stage;
mod registers;
mod shown;
mod stages;
mod turns;

pub use alu_stage::{Decided, branches, decide, falls_through, goes_back, goes_on, goes_to};
pub use counts::Counts;
pub use decoded::Decoded;
pub use handler::SHIPPED;
pub use held::{Coming, Held};
pub use latches::{Latches, Stage};
pub use laws::{one_user_turn, stages_are_a_window};
pub use machine::{Cycled, Machine};
pub use mem_stage::{Committed, move_to};
pub use mx_io::Memory;
pub use registers::{LoadSlot, Registers, no_slot, read, set};
pub use shown::number_of;
pub use stages::{fetch_of, led, popped, restored, saved, squash, stage_of};
pub use turns::Turns;
