//! The faulty lines of a text.

use crate::span::Span;
use mx_lines::Fault;

/// A faulty line, counted from 1, with its least fault, and the bytes of the line that show it, where one token does.
#[derive(Clone, Copy, Debug, PartialEq, Eq)]
pub struct LineFault {
    pub line: u32,
    pub fault: Fault,
    pub span: Option<Span>,
}
