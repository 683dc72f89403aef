//! Why texts are not read.
ghost use Rattle.cc_program.specs.declared.error.ReadError.TheVariants.{Memory};
ghost use Rattle.std.specs.Prelude.{◌≡◌};
ghost use Rattle.cc_program.specs.Errors;

use cc_lines::{LineError, Refusal};
use std::alloc::{AllocError, AllocFailed};

/// The first line that is not taken.
#[derive(Clone, Copy, Drop)]
pub struct Fault<'a> {
    /// The number of its text, from 0.
    pub unit: u32,
    /// Its number, from 1.
    pub line: u32,
    /// Which of its statements it is, from 0.
    pub statement: u32,
    pub refusal: Refusal,
    /// The symbol that it is about.
    pub symbol: Option<&'a [u8]>,
}

/// Why texts are not read.
#[derive(Clone, Copy, Drop)]
pub enum ReadError<'a> {
    Fault(Fault<'a>),
    /// No text defines `main`.
    NoMain,
    Memory,
}

impl<'a> From<AllocError> for ReadError<'a> {
    ghost from_gives = { λ _ e. e ≡ Memory };

    fn from(_: AllocError) -> ReadError<'a> {
        ReadError::Memory
    }
}

/// The error of a statement of a line.
pub fn error_at<'a>(unit: u32, line: u32, statement: u32, error: LineError) -> ReadError<'a>
    ensures { result ≡ Errors.error_at unit line statement error }
{
    match error {
        LineError::Refused(refusal) => ReadError::Fault(Fault {
            unit,
            line,
            statement,
            refusal,
            symbol: None,
        }),
        LineError::Memory => ReadError::Memory,
    }
}

impl<'a, T: Drop> From<AllocFailed<T>> for ReadError<'a> {
    ghost from_gives = { λ _ e. e ≡ Memory };

    fn from(_: AllocFailed<T>) -> ReadError<'a> {
        ReadError::Memory
    }
}
