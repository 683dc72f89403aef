//! The kinds of files that commands read.
ghost use Rattle.std.specs.Prelude.{◌≡◌, IfOk, string_bytes};
ghost use Rattle.cmd_answer.specs.Files.{limit_of, file_word};

use mx_io::{MAX_FILE_BYTES, MAX_SOURCE_BYTES};
use std::alloc::{AllocError, Global};

/// A kind of file.
#[derive(Clone, Copy, Debug, PartialEq, Eq)]
pub enum FileKind {
    Source,
    /// The source of the first of two programs that share the machine.
    First,
    /// The source of the second.
    Second,
    /// The text of a module of a program, which counts from 1.
    Module(u32),
    Image,
    Interrupts,
    Input,
}

impl FileKind {
    /// How many bytes such a file may have: 4,194,304 for a source, be it one of several, 1,048,576 for the others.
    pub fn limit(self) -> usize
        ensures { result ≡ limit_of self }
    {
        match self {
            FileKind::Source | FileKind::First | FileKind::Second => MAX_SOURCE_BYTES,
            FileKind::Module(_) => MAX_SOURCE_BYTES,
            _ => MAX_FILE_BYTES,
        }
    }

    /// The words for it in the line of a read fault.
    pub fn word(self, alloc: Global) -> Result<String, AllocError>
        ensures { IfOk result (λ w. string_bytes w ≡ file_word self) }
    {
        match self {
            FileKind::Source => String::from_str(alloc, "source"),
            FileKind::First => String::from_str(alloc, "program 1"),
            FileKind::Second => String::from_str(alloc, "program 2"),
            FileKind::Module(number) => format!(in alloc; "module {number}"),
            FileKind::Image => String::from_str(alloc, "image"),
            FileKind::Interrupts => String::from_str(alloc, "interrupts"),
            FileKind::Input => String::from_str(alloc, "input"),
        }
    }
}
