//! What a drawing shows of a fetch in a cycle.

/// What a fetch does in a cycle. Its stage is a number: 0 is IF, 1 RF, 2 ALU, 3 MEM, 4 WB.
#[derive(Clone, Copy, PartialEq)]
pub enum Cell {
    /// It is in no stage, or the cycle is stalled and it is not what the cycle waits for.
    Nothing,
    /// The stalled cycle waits for it.
    Waits,
    /// It is in this stage, and is not squashed.
    Live(u8),
    /// It is in this stage, and is squashed.
    Squashed(u8),
    /// It is in this stage, squashed or not, and the turn takes an interrupt, which kills it.
    Killed(u8),
}
