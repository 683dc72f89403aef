//! Instructions of MIPS-I, as the assembler of a compiler's output takes them.
ghost use Rattle.std.specs.Prelude.{◌≡◌, ℕ, not};
ghost use Rattle.cc_lines.specs.Conditions.{holds};

/// A general register, by its number from 0 to 31.
#[derive(Clone, Copy, PartialEq, Eq)]
pub struct Register(pub u8);

impl Register {
    /// It is always 0.
    pub const ZERO: Register = Register(0);

    /// What the instructions of one statement use between them. No line may name it.
    pub const BETWEEN: Register = Register(1);

    /// Where a factor or a divisor is that is a number, as the product or the quotient takes its place.
    pub(crate) const LOW: Register = Register(24);

    /// The stack pointer.
    pub const STACK: Register = Register(29);

    /// The frame pointer, in functions that have one.
    pub const FRAME: Register = Register(30);

    /// Where a call leaves the place to return to.
    pub const LINK: Register = Register(31);
}

/// What is computed of two words.
#[derive(Clone, Copy, PartialEq, Eq)]
pub enum Operation {
    Add,
    Sub,
    And,
    Or,
    Xor,
    Nor,
    /// 1 where the first is less than the second as a signed number, else 0.
    Less,
    /// The same of unsigned numbers.
    Lower,
}

/// The ways to shift a word.
#[derive(Clone, Copy)]
pub enum Shift {
    Left,
    Right,
    Arithmetic,
    /// To the left, where the bits that leave it come in again.
    Rotate,
}

/// A second operand.
#[derive(Clone, Copy, PartialEq, Eq)]
pub enum Source {
    Register(Register),
    Number(u32),
}

/// How much of memory a load or a store moves.
#[derive(Clone, Copy)]
pub enum Width {
    Byte { signed: bool },
    Half { signed: bool },
    Word,
    /// From the byte to the end of its word: `lwl` and `swl`.
    Left,
    /// From the start of the word to the byte: `lwr` and `swr`.
    Right,
}

/// Products and quotients, which go to LO and HI.
#[derive(Clone, Copy)]
pub enum Long {
    Product { signed: bool },
    Quotient { signed: bool },
}

/// The registers of products and quotients.
#[derive(Clone, Copy)]
pub enum Special {
    Lo,
    Hi,
}

/// When a branch is taken.
#[derive(Clone, Copy, PartialEq, Eq)]
pub enum Condition {
    Equal,
    NotEqual,
    Less,
    NotLess,
    Greater,
    NotGreater,
    Lower,
    NotLower,
    Higher,
    NotHigher,
}

impl Condition {
    /// The condition that holds where this one does not.
    pub fn opposite(self) -> Condition
        ensures { (a b : ℕ) → holds result a b ≡ not (holds self a b) }
    {
        match self {
            Condition::Equal => Condition::NotEqual,
            Condition::NotEqual => Condition::Equal,
            Condition::Less => Condition::NotLess,
            Condition::NotLess => Condition::Less,
            Condition::Greater => Condition::NotGreater,
            Condition::NotGreater => Condition::Greater,
            Condition::Lower => Condition::NotLower,
            Condition::NotLower => Condition::Lower,
            Condition::Higher => Condition::NotHigher,
            Condition::NotHigher => Condition::Higher,
        }
    }
}

/// Where a jump or a call goes.
#[derive(Clone, Copy)]
pub enum LinkFrom {
    /// To the symbol of the statement.
    Symbol,
    /// To what a register holds.
    Register(Register),
}

/// An instruction. Where it names a symbol, that is in its statement, and is added to the offset.
#[derive(Clone, Copy)]
pub enum Instruction {
    Compute {
        op: Operation,
        rd: Register,
        rs: Register,
        second: Source,
    },
    Shift {
        op: Shift,
        rd: Register,
        rs: Register,
        by: Source,
    },
    Move {
        rd: Register,
        rs: Register,
    },
    Number {
        rd: Register,
        value: u32,
    },
    Address {
        rd: Register,
        base: Register,
        offset: u32,
    },
    Load {
        width: Width,
        rd: Register,
        base: Register,
        offset: u32,
    },
    Store {
        width: Width,
        rs: Register,
        base: Register,
        offset: u32,
    },
    Long {
        op: Long,
        rs: Register,
        rt: Register,
    },
    FromSpecial {
        special: Special,
        rd: Register,
    },
    ToSpecial {
        special: Special,
        rs: Register,
    },
    Branch {
        condition: Condition,
        rs: Register,
        second: Source,
    },
    Jump(LinkFrom),
    Call(LinkFrom),
    /// A trap, with the code that it has.
    Break(u32),
    Nop,
}

/// How many instructions follow the first one of a statement at most.
pub const MOST_BEHIND: usize = 3;

/// An instruction and the symbol that it names.
#[derive(Clone, Copy)]
pub struct Statement<'a> {
    pub instruction: Instruction,
    pub symbol: Option<&'a [u8]>,
    /// The instructions that follow it where the statement means several; `Nop` where there are none. A store among them names
    /// the same symbol.
    pub behind: [Instruction; MOST_BEHIND],
}
