//! What is recorded of a cycle.
use mx_turn::{Counts, Cycled, Latches};

/// A cycle, and the machine after it.
#[derive(Clone, Copy)]
pub struct Frame {
    /// An interrupt request came in it.
    pub requested: bool,
    /// What it answered.
    pub cycled: Cycled,
    /// The number of its turn, which is that of the newest fetch: how many turns were completed before it.
    pub turn: u64,
    /// What the last completed turn shows.
    pub shown: Latches,
    pub counts: Counts,
    /// r0 to r31.
    pub registers: [u32; 32],
    pub md: u32,
    /// The number of input bytes taken.
    pub inputs: u32,
    /// The number that the word in ALU made in the last turn before the cycle. It is the address of a store that is in MEM in
    /// the cycle.
    pub address: u32,
    /// The data word at that address; 0 where the address is none of data.
    pub word: u32,
}
