//! What looking over several statements leaves for each of them.
ghost use Rattle.std.specs.Prelude.{◌≡◌, ℕ, not};
ghost use Rattle.cc_lines.specs.Conditions.{holds};

use cc_lines::{Condition, Instruction, Register, Source};

/// Where a datum of a load or a store is.
#[derive(Clone, Copy)]
pub enum Place {
    /// At so many words from what the register holds, from this byte of the word on.
    Byte { base: u8, words: u32, byte: u8 },
    /// At so many words from what the register holds, from the byte on that the low bits of another register tell.
    Turned { base: u8, words: u32, by: u8 },
    /// At so many bytes from what the register holds.
    Far { base: u8, bytes: u32 },
}

/// A comparison.
#[derive(Clone, Copy)]
pub struct Comparison {
    pub condition: Condition,
    pub rs: Register,
    pub second: Source,
}

impl Comparison {
    /// The comparison that holds where this one does not.
    pub(crate) fn opposite(self) -> Comparison
        ensures condition { (a b : ℕ) → holds result.condition a b ≡ not (holds self.condition a b) }
        ensures operands { (result.rs ≡ self.rs) × (result.second ≡ self.second) }
    {
        Comparison {
            condition: self.condition.opposite(),
            rs: self.rs,
            second: self.second,
        }
    }
}

/// What becomes of a statement.
#[derive(Clone, Copy)]
pub enum Step {
    /// It is translated.
    Kept,
    /// What its branch does.
    Gone,
    /// A branch that makes a comparison.
    Fused(Comparison),
    /// A branch that makes a comparison whose truth a register takes too: `taken` where the branch is taken, else the opposite.
    Split {
        found: Comparison,
        into: Register,
        taken: bool,
    },
    /// A branch that compares so many low bits of a register, which are shifted to the top of a word, with 0.
    Bits {
        rs: Register,
        count: u8,
        condition: Condition,
    },
}

/// What is known of a statement from those around it.
#[derive(Clone, Copy)]
pub struct Plan {
    pub step: Step,
    /// What is read behind it.
    pub live: u64,
    /// Where its datum is, if it loads or stores.
    pub place: Option<Place>,
    /// A register that is divided by 4 before it, and the one that takes the quotient.
    pub divided: Option<(u8, u8)>,
}

impl Plan {
    /// The plan of a statement of which nothing is known.
    pub(crate) fn new() -> Plan {
        Plan {
            step: Step::Kept,
            live: 0,
            place: None,
            divided: None,
        }
    }
}

/// A statement of a function: its instruction, the symbol that this names, and what is planned for it.
#[derive(Clone, Copy)]
pub struct Planned {
    pub instruction: Instruction,
    pub symbol: Option<u32>,
    pub line: u32,
    pub plan: Plan,
}
