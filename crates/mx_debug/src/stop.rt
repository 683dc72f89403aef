//! What a session gives.

/// A stop: the cycle, the first being 0, after which the word is about to take effect, the console bytes given by then, and
/// what the machine then holds: its registers, MD and the watched data word.
#[derive(Clone, Copy, Debug, PartialEq, Eq)]
pub struct Stop {
    pub cycle: u32,
    pub bytes: u32,
    pub registers: [u32; 32],
    pub md: u32,
    pub word: u32,
}

/// How a session ends: at its last stop, at a halt, or with its budget of cycles.
#[derive(Clone, Copy, Debug, PartialEq, Eq)]
pub enum Ending {
    Stopped,
    Halted,
    OutOfBudget,
}

/// A session: its stops in order, the console up to its end, and how it ended.
#[derive(Drop)]
pub struct Stopped {
    pub stops: Vec<Stop>,
    pub console: Vec<u8>,
    pub ending: Ending,
}
