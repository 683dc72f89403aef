//! Why a line is not taken.
ghost use Rattle.std.specs.Prelude.{◌≡◌, Some};

use std::alloc::{AllocError, AllocFailed};

/// Why a line is not taken.
#[derive(Clone, Copy)]
pub enum Refusal {
    UnknownMnemonic,
    UnknownDirective,
    BadOperands,
    BadNumber,
    FloatingPoint,
    System,
    LabelArithmetic,
    KeptRegister,
    DelaySlots,
    BadText,
    BadName,
    LongName,
    OutsideFunction,
    OutsideObject,
    UnalignedSymbol,
    DefinedTwice,
    Undefined,
    NoPlace,
    Misaligned,
    CodeAsData,
    Constructor,
}

impl Refusal {
    ghost use Rattle.cc_lines.specs.Refusals;

    /// What is said of it, and of no other.
    pub fn reason(self) -> &'static str
        ensures { Refusals.told_by result.now ≡ Some self }
    {
        match self {
            Refusal::UnknownMnemonic => "an instruction that is not known",
            Refusal::UnknownDirective => "a directive that is not known",
            Refusal::BadOperands => "operands of another shape than it takes",
            Refusal::BadNumber => "a number that is too large or is none",
            Refusal::FloatingPoint =>
                "floating-point registers are not taken; compile with -msoft-float",
            Refusal::System => "an instruction of the system",
            Refusal::LabelArithmetic => "arithmetic on labels",
            Refusal::KeptRegister =>
                "registers 1 and 22 to 28 are kept; compile with the options of lib/flags",
            Refusal::DelaySlots => "delay slots are not taken; compile with -fno-delayed-branch",
            Refusal::BadText => "unterminated string",
            Refusal::BadName => "a character that a name may not have",
            Refusal::LongName => "a name that is too long",
            Refusal::OutsideFunction => "an instruction outside a function",
            Refusal::OutsideObject => "data without a label before it",
            Refusal::UnalignedSymbol =>
                "a symbol in less than a word, or in a word that is not on a word's place",
            Refusal::DefinedTwice => "a symbol that is defined twice",
            Refusal::Undefined => "a symbol that is defined nowhere",
            Refusal::NoPlace => "a label that is no place to go to",
            Refusal::Misaligned =>
                "a halfword or a word at an address that is not a multiple of its size",
            Refusal::CodeAsData => "a load or a store in code",
            Refusal::Constructor =>
                "a function that runs before or after main, which the start of the library does",
        }
    }
}

/// Why a line is not read.
#[derive(Clone, Copy)]
pub enum LineError {
    Refused(Refusal),
    Memory,
}

impl From<AllocError> for LineError {
    fn from(_: AllocError) -> LineError
        ensures { result ≡ LineError.Memory }
    {
        LineError::Memory
    }
}

impl<T: Drop> From<AllocFailed<T>> for LineError {
    fn from(_: AllocFailed<T>) -> LineError
        ensures { result ≡ LineError.Memory }
    {
        LineError::Memory
    }
}

impl From<Refusal> for LineError {
    fn from(refusal: Refusal) -> LineError
        ensures { result ≡ LineError.Refused refusal }
    {
        LineError::Refused(refusal)
    }
}
