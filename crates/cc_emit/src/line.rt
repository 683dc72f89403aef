//! The lines of a translation.
ghost use Rattle.std.specs.Prelude.{◌≡◌, Some};
ghost use Rattle.cc_emit.specs.Labels.{labelled, routine_label, mask_label, mask_words};
ghost use Rattle.cc_emit.specs.Lines;

use cc_lines::{Condition, Shift};

/// The routines that statements call.
#[derive(Clone, Copy, PartialEq, Eq)]
pub enum Routine {
    /// The low word of a product.
    Low,
    Product,
    SignedProduct,
    Quotient,
    SignedQuotient,
    ShiftLeft,
    ShiftRight,
    ShiftArithmetic,
    RotateLeft,
    /// What ends the program at a trap, a quotient by 0, a load or a store at a null pointer, and a full stack.
    Trap,
    Zero,
    Null,
    Stack,
}

/// All routines, in their order in the text.
pub(crate) static ROUTINES: [Routine; 13] = [
    Routine::Low,
    Routine::SignedProduct,
    Routine::Product,
    Routine::SignedQuotient,
    Routine::Quotient,
    Routine::ShiftLeft,
    Routine::ShiftRight,
    Routine::ShiftArithmetic,
    Routine::RotateLeft,
    Routine::Trap,
    Routine::Zero,
    Routine::Null,
    Routine::Stack,
];

impl Routine {
    /// Its label, which no other has.
    pub fn name(self) -> &'static str
        ensures label { result.now ≡ routine_label self }
        ensures own { labelled result.now ≡ Some self }
    {
        match self {
            Routine::Low => "m.mul",
            Routine::Product => "m.multu",
            Routine::SignedProduct => "m.mult",
            Routine::Quotient => "m.divu",
            Routine::SignedQuotient => "m.div",
            Routine::ShiftLeft => "m.sll",
            Routine::ShiftRight => "m.srl",
            Routine::ShiftArithmetic => "m.sra",
            Routine::RotateLeft => "m.rol",
            Routine::Trap => "m.trap",
            Routine::Zero => "m.zero",
            Routine::Null => "m.null",
            Routine::Stack => "m.stack",
        }
    }
}

/// Tables of data that statements read.
#[derive(Clone, Copy, PartialEq, Eq)]
pub enum Mask {
    LoadLeft,
    LoadRight,
    StoreLeft,
    StoreRight,
}

/// All tables, in their order in the text.
pub(crate) static MASKS: [Mask; 4] = [
    Mask::LoadLeft,
    Mask::LoadRight,
    Mask::StoreLeft,
    Mask::StoreRight,
];

impl Mask {
    /// Its label.
    pub(crate) fn name(self) -> &'static str
        ensures { result.now ≡ mask_label self }
    {
        match self {
            Mask::LoadLeft => "t.lwl",
            Mask::LoadRight => "t.lwr",
            Mask::StoreLeft => "t.swl",
            Mask::StoreRight => "t.swr",
        }
    }

    /// Its words.
    pub(crate) fn words(self) -> [u32; 4]
        ensures { result ≡ mask_words self }
    {
        match self {
            Mask::LoadLeft => [0, 0xff, 0xffff, 0xff_ffff],
            Mask::LoadRight => [0xffff_ff00, 0xffff_0000, 0xff00_0000, 0],
            Mask::StoreLeft => [0xffff_ffff, 0xff_ffff, 0xffff, 0xff],
            Mask::StoreRight => [0xff00_0000, 0xffff_0000, 0xffff_ff00, 0xffff_ffff],
        }
    }
}

/// A word of data that the translation adds.
#[derive(Clone, Copy)]
pub enum Word {
    /// A number.
    Number(u32),
    /// The address so many bytes after all data.
    End(u32),
    /// The stack pointer at the start.
    Stack,
    /// The first word of a shift's table: the code address of its routine for each count.
    Shifts(Shift),
    /// The first word of a table.
    Mask(Mask),
}

/// A place of the code. Functions and items of functions both have symbols, which name them here.
#[derive(Clone, Copy)]
pub enum Target {
    /// The function or the item that the symbol with this number names.
    Symbol(u32),
    Routine(Routine),
    /// Where the routine of a shift begins for a count.
    Shifted { routine: Routine, count: u8 },
    /// One that a branch over statements of the translation goes to, by its number.
    Skip(u32),
}

/// What a statement computes of two registers.
#[derive(Clone, Copy, PartialEq, Eq)]
pub enum Computed {
    Add,
    Sub,
    And,
    Or,
    Xor,
    /// The bits of the first that the second does not have.
    Bic,
    /// The first, turned to the left by as many bytes as the low two bits of the second say.
    Rotlb,
}

/// An instruction over registers and words of data. Registers have their numbers.
#[derive(Clone, Copy)]
pub enum Plain {
    Compute { op: Computed, a: u8, b: u8, rd: u8 },
    Move { rs: u8, rd: u8 },
    Not { rs: u8, rd: u8 },
    Addi { rs: u8, number: i32, rd: u8 },
    Asr { rs: u8, count: u8, rd: u8 },
    /// The low bits of `b`, so many as the count, above the high bits of `a`.
    Sh { a: u8, b: u8, count: u8, rd: u8 },
    Load { words: i32, base: u8, rd: u8 },
    Store { words: i32, base: u8, rs: u8 },
}

/// What another statement than the next one may follow.
#[derive(Clone, Copy)]
pub enum Transfer {
    Branch {
        condition: Condition,
        a: u8,
        b: u8,
        to: Target,
    },
    Jump(Target),
    Call {
        to: Target,
        link: u8,
    },
    CallReg {
        rs: u8,
        link: u8,
    },
    JumpReg(u8),
    Halt,
}

/// A line of the code.
#[derive(Clone, Copy)]
pub enum Line {
    Plain(Plain),
    /// A load of a number: as it is, or from a word of data.
    Constant { value: u32, rd: u8 },
    /// A load of a word that the translation adds, or of one so many words after it.
    Take { word: Word, base: u8, rd: u8 },
    Transfer(Transfer),
    /// The label of a place.
    Mark(Target),
    /// The file and the line that the next statements come from, in a comment.
    Told { unit: u32, file: u32, line: u32 },
    /// A line of a routine of `routines`, which has its products, quotients and ends as texts. Its own text is exactly this, and a newline.
    Written(&'static str),
}

/// Whether a statement holds a number.
pub fn is_short(number: i32) -> bool
    ensures { result ≡ Lines.is_short number }
{
    -65536 <= number && number <= 65535
}

/// What computes of two registers.
pub fn compute_line(op: Computed, a: u8, b: u8, rd: u8) -> Line
    ensures { result ≡ Line.Plain (Plain.Compute op a b rd) }
{
    Line::Plain(Plain::Compute { op, a, b, rd })
}

/// What takes a register's value from two others in a row.
pub fn shift_line(a: u8, b: u8, count: u8, rd: u8) -> Line
    ensures { result ≡ Line.Plain (Plain.Sh a b count rd) }
{
    Line::Plain(Plain::Sh { a, b, count, rd })
}

impl Line {
    /// Whether it is a statement, and no label and no comment.
    pub fn is_statement(&self) -> bool
        ensures { result ≡ Lines.is_statement self.now }
    {
        match self {
            Line::Mark(_) | Line::Told { .. } => false,
            Line::Written(text) => !text.as_bytes().ends_with(b":"),
            _ => true,
        }
    }
}
