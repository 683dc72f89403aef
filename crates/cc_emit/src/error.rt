//! Why texts are not translated.
ghost use Rattle.std.specs.Prelude.{◌≡◌};
ghost use Rattle.cc_emit.specs.declared.error.TranslateError.TheVariants.{Memory};
ghost use Rattle.cc_emit.specs.Errors.{IsTooMany};

use cc_program::{Fault, ReadError};
use std::alloc::AllocError;

/// Why texts are not translated.
#[derive(Clone, Copy, Drop)]
pub enum TranslateError<'a> {
    Fault(Fault<'a>),
    /// No text defines `main`.
    NoMain,
    /// So many statements, and a source has fewer; and the function with which there were too many, if it is one of the texts.
    Statements(u32, Option<&'a [u8]>),
    /// So many data words, and a source has fewer, or leaves no room for the stack.
    Words(u64),
    /// The line of the code with this number, counted from 1: a source has no such register or number, or no such name of a file.
    Line(usize),
    /// The name of a symbol, for which a source has no name.
    Name(&'a [u8]),
    Memory,
}

impl<'a> From<AllocError> for TranslateError<'a> {
    ghost from_gives = { λ _ e. e ≡ Memory };

    fn from(_: AllocError) -> TranslateError<'a> {
        TranslateError::Memory
    }
}

impl<'a> From<ReadError<'a>> for TranslateError<'a> {
    ghost from_gives = { λ _ e. IsTooMany e };

    fn from(error: ReadError<'a>) -> TranslateError<'a> {
        match error {
            ReadError::Fault(fault) => TranslateError::Fault(fault),
            ReadError::NoMain => TranslateError::NoMain,
            ReadError::Memory => TranslateError::Memory,
        }
    }
}
