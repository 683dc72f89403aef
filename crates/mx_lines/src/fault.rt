//! The faults of a text.
ghost use Rattle.std.specs.Prelude.{◌≡◌};
ghost use Rattle.mx_lines.specs.FaultTexts.{fault_text};
ghost use Rattle.mx_lines.specs.declared.fault.AsmError.TheVariants as text_errors;
ghost use Rattle.mx_lines.specs.declared.fault.LineError.TheVariants as line_errors;

use mx_io::Memory;
use std::alloc::{AllocError, AllocFailed};
use thiserror::Error;

/// How many bytes a line has at most.
pub const MAX_LINE_BYTES: usize = 255;

/// What is wrong with a line. A line has the first of these that holds of it.
#[derive(Clone, Copy, Debug, PartialEq, Eq, Error)]
#[error("{}", self.text())]
pub enum Fault {
    /// A byte outside the comment is neither a tab nor 32 to 126.
    BadByte,
    /// The line does not split into tokens.
    BadToken,
    /// The statement begins with a name that is no mnemonic.
    UnknownMnemonic,
    /// The statement does not begin with a name, or its operands do not have the shape of its mnemonic.
    BadOperands,
    /// A name in the place of a register or a special word is none.
    BadRegister,
    /// A number is outside the range of its place.
    NumberOutOfRange,
    /// A label is defined earlier.
    DuplicateLabel,
    /// A label is defined nowhere.
    UndefinedLabel,
    /// A code label in the place of a data label, or a data label in that of a code label.
    WrongLabelKind,
    /// An instruction of the system.
    SystemInstruction,
    /// An unknown directive, one of another shape, or a statement in the wrong section.
    BadDirective,
    /// There are more than 20,000 instructions.
    TooManyInstructions,
    /// There is no room for the data.
    DataFull,
    /// The line has more than 255 bytes.
    LineTooLong,
}

impl Fault {
    /// The number of the fault and its name, as `F1 BadByte`.
    pub fn text(self) -> &'static str
        ensures { result.now ≡ fault_text self }
    {
        match self {
            Fault::BadByte => "F1 BadByte",
            Fault::BadToken => "F2 BadToken",
            Fault::UnknownMnemonic => "F3 UnknownMnemonic",
            Fault::BadOperands => "F4 BadOperands",
            Fault::BadRegister => "F5 BadRegister",
            Fault::NumberOutOfRange => "F6 NumberOutOfRange",
            Fault::DuplicateLabel => "F7 DuplicateLabel",
            Fault::UndefinedLabel => "F8 UndefinedLabel",
            Fault::WrongLabelKind => "F9 WrongLabelKind",
            Fault::SystemInstruction => "F10 SystemInstruction",
            Fault::BadDirective => "F11 BadDirective",
            Fault::TooManyInstructions => "F12 TooManyInstructions",
            Fault::DataFull => "F13 DataFull",
            Fault::LineTooLong => "F14 LineTooLong",
        }
    }
}

/// Why a text is not assembled.
#[derive(Debug, Drop, Error)]
pub enum AsmError {
    /// The first faulty line, counted from 1, and its first fault.
    #[error("line {line}: {fault}")]
    Refused { line: u32, fault: Fault },
    #[error("out of memory")]
    Memory,
}

/// Why a line is not read.
#[derive(Debug, Drop, Error)]
pub enum LineError {
    /// The first fault of the line.
    #[error("{0}")]
    Fault(Fault),
    #[error("out of memory")]
    Memory,
}

impl From<Fault> for LineError {
    ghost from_gives = { λ fault e. e ≡ line_errors.Fault fault };

    fn from(fault: Fault) -> LineError {
        LineError::Fault(fault)
    }
}

impl From<AllocError> for LineError {
    ghost from_gives = { λ _ e. e ≡ line_errors.Memory };

    fn from(_: AllocError) -> LineError {
        LineError::Memory
    }
}

impl<T: Drop> From<AllocFailed<T>> for LineError {
    ghost from_gives = { λ _ e. e ≡ line_errors.Memory };

    fn from(_: AllocFailed<T>) -> LineError {
        LineError::Memory
    }
}

impl From<Memory> for LineError {
    ghost from_gives = { λ _ e. e ≡ line_errors.Memory };

    fn from(_: Memory) -> LineError {
        LineError::Memory
    }
}

impl From<AllocError> for AsmError {
    ghost from_gives = { λ _ e. e ≡ text_errors.Memory };

    fn from(_: AllocError) -> AsmError {
        AsmError::Memory
    }
}

impl From<Memory> for AsmError {
    ghost from_gives = { λ _ e. e ≡ text_errors.Memory };

    fn from(_: Memory) -> AsmError {
        AsmError::Memory
    }
}
