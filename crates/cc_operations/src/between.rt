//! The registers that translations use between their instructions.

/// The first of the registers for what a statement needs between its words. Texts of several statements name them as r1, r26 and
/// r27, and r22 where three are not enough.
pub const FIRST: u8 = 1;

/// The second one.
pub const SECOND: u8 = 26;

/// The third one.
pub const THIRD: u8 = 27;
