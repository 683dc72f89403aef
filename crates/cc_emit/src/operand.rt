//! What stands between the commas of a statement.

use crate::line::{Target, Word};

/// An operand of a statement.
#[derive(Clone, Copy)]
pub(crate) enum Operand {
    Register(u8),
    Immediate(i32),
    /// By how many bits a register is shifted.
    Count(u8),
    /// The word so many words after the one that a register has the address of.
    Memory { words: i32, base: u8 },
    /// A word that the translation adds, or one so many words after it.
    Held { word: Word, base: u8 },
    Place(Target),
}
