//! The machine by five latches: operands are read in RF, results are made in ALU and passed on over bypass paths,
//! memory is reached in MEM, and registers are written in WB.
#![tactic(auto)]

mod alu;
mod fetching;
mod latch;
mod laws;
mod machine;
mod memory;
mod operands;
mod pipe;
mod running;

pub use latch::Latch;
pub use mx_io::Memory;
pub use pipe::{Pipe, Wait};
