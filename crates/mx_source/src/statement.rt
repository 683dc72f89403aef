//! Values, statements and labels.
use mx_isa::{Cond, Inst, Reg};

/// What a register or a data word holds: a word, or the place of a statement in the source.
#[derive(Clone, Copy, Debug, PartialEq, Eq)]
pub enum Value {
    /// A word of 32 bits.
    Int(u32),
    /// The index of a statement, or the number of statements for the place after the last one.
    Code(u32),
}

/// A statement of the source language. A `target` is the index of a statement.
#[derive(Clone, Copy, Debug, PartialEq, Eq)]
pub enum Statement {
    /// A load, a store, a compute instruction, `addi`, or a move from or to MD.
    Plain(Inst),
    /// `la` of a code label.
    LaCode {
        dest: Reg,
        target: u32,
    },
    /// A branch on a condition.
    Branch {
        a: Reg,
        b: Reg,
        cond: Cond,
        target: u32,
    },
    /// A jump to a label that leaves the place of the next statement in `dest`.
    Call {
        dest: Reg,
        target: u32,
    },
    /// A jump to the place in `a` that leaves the place of the next statement in `dest`.
    CallReg {
        a: Reg,
        dest: Reg,
    },
    /// A jump to the place in `a`.
    JumpReg {
        a: Reg,
    },
    /// The end of the run.
    Halt,
}

/// What a label names.
#[derive(Clone, Copy, Debug, PartialEq, Eq)]
pub enum Label {
    /// The index of a statement, or the number of statements.
    Code(u32),
    /// The address of a data word.
    Data(u32),
}

/// Why a program can not go on.
#[derive(Clone, Copy, Debug, PartialEq, Eq)]
pub enum Why {
    /// There is no statement at the index.
    PastEnd,
    /// An operand that must be a word is a place of code.
    CodeOperand,
    /// A load from an address that is neither user data nor, in a source with input, that of the input.
    LoadOutside,
    /// A store to an address that is neither user data nor the console.
    StoreOutside,
    /// A store of a place of code to the console.
    CodeToConsole,
    /// A jump by a register that holds a word.
    JumpNotCode,
}
