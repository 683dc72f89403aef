//! What `check` tells of a line.
ghost use Rattle.std.specs.Prelude.{◌≡◌, codes};

use lab_faults::marks_under;
use lab_writer::Writer;
use mx_faults::Span;
use std::alloc::{AllocError, Global};

/// How grave it is: a source with an error is refused, and one with a warning is not.
#[derive(Clone, Copy)]
pub enum Severity {
    Error,
    Warning,
}

impl Severity {
    /// Its word.
    pub fn word(self) -> &'static str
        ensures error { self ≡ Severity.Error → result.now ≡ codes "error" }
        ensures warning { self ≡ Severity.Warning → result.now ≡ codes "warning" }
    {
        match self {
            Severity::Error => "error",
            Severity::Warning => "warning",
        }
    }
}

/// What is found at a line of a text.
#[derive(Drop)]
pub struct Finding<'a> {
    /// The number of the line, counted from 1.
    pub line: u32,
    /// The line, and the marks under it.
    pub text: &'a [u8],
    pub marks: Vec<u8>,
    /// The bytes that are marked, if some are.
    pub span: Option<Span>,
    pub severity: Severity,
    /// The number and the name of the fault or the warning, as `F3` and `UnknownMnemonic`.
    pub code: &'static str,
    pub name: &'static str,
    pub message: String,
    pub hint: Option<String>,
    /// The line from which it follows, where it is no fault of its own.
    pub follows: Option<u32>,
}

impl Finding<'_> {
    /// The column of the first byte that is marked, counted from 1; the first one where none is.
    pub fn column(&self) -> usize {
        match self.span {
            Some(span) => span.start.saturating_add(1),
            None => 1,
        }
    }

    /// The column after the last byte that is marked; after the line where none is.
    pub fn end_column(&self) -> usize {
        match self.span {
            Some(span) => span.end.saturating_add(1),
            None => self.text.len().saturating_add(1),
        }
    }
}

/// What is said of a line: what it is, and what may have been meant, if something is known.
#[derive(Drop)]
pub struct Words {
    message: String,
    hint: Option<String>,
}

impl Words {
    /// What was written of a line: nothing more is known of it where the hint is empty.
    pub fn new(message: Writer, hint: Writer) -> Result<Words, AllocError> {
        let message = message.into_text()?;
        let hint = hint.into_text()?;
        Ok(Words {
            message,
            hint: if hint.is_empty() { None } else { Some(hint) },
        })
    }
}

/// What is found at a line, before anything is said of it.
#[derive(Clone, Copy)]
pub struct Found<'a> {
    pub line: u32,
    pub text: &'a [u8],
    pub span: Option<Span>,
    pub severity: Severity,
    pub code: &'static str,
    pub name: &'static str,
    pub follows: Option<u32>,
}

impl<'a> Found<'a> {
    /// The finding of which this is said.
    pub fn told(self, alloc: Global, words: Words) -> Result<Finding<'a>, AllocError> {
        let marks = marks_under(alloc, self.text, self.span)?;
        let Words { message, hint } = words;
        Ok(Finding {
            line: self.line,
            text: self.text,
            marks,
            span: self.span,
            severity: self.severity,
            code: self.code,
            name: self.name,
            message,
            hint,
            follows: self.follows,
        })
    }
}
