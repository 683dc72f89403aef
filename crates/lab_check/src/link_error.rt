//! What is found at an import or export line for which modules are refused.
use crate::finding::{Finding, Found, Severity, Words};
use crate::sentence::{bytes_in, text_of};
use lab_writer::Writer;
use mx_asm::{line_words, statement_words};
use mx_faults::{Span, token_span};
use mx_lines::{Fault, Word};
use mx_module::JoinFault;
use std::alloc::{AllocError, Global};

// The number and the name of a fault of an import or export line.
fn named(fault: JoinFault) -> (&'static str, &'static str) {
    match fault {
        JoinFault::BadName => ("G1", "BadName"),
        JoinFault::NotDefined => ("G2", "NotDefined"),
        JoinFault::DuplicateExport => ("G3", "DuplicateExport"),
        JoinFault::NoExport => ("G4", "NoExport"),
        JoinFault::LocalClash => ("G5", "LocalClash"),
        JoinFault::Line(fault) => line_named(fault),
    }
}

// The number and the name of a fault of another line.
fn line_named(fault: Fault) -> (&'static str, &'static str) {
    let text = fault.text();
    text.split_once(' ').unwrap_or((text, ""))
}

// What is said of a fault, before the name that the line links and behind it.
fn told(fault: JoinFault) -> (&'static str, &'static str) {
    match fault {
        JoinFault::BadName => (
            "an import or export is a line of its own, with one name",
            "",
        ),
        JoinFault::NotDefined => ("exported label '", "' is not defined in this module"),
        JoinFault::DuplicateExport => ("'", "' is exported already"),
        JoinFault::NoExport => ("no other module exports '", "'"),
        JoinFault::LocalClash => ("imported label '", "' is defined in this module"),
        JoinFault::Line(_) => ("the program has a fault here", ""),
    }
}

// What helps.
fn help(fault: JoinFault) -> &'static str {
    match fault {
        JoinFault::BadName => {
            "'.import NAME' or '.export NAME': NAME does not begin with '.', and an exported one has no '..'"
        }
        JoinFault::NotDefined => "a label of this name is missing, or the line is not needed",
        JoinFault::DuplicateExport => "a name is exported once, in all modules",
        JoinFault::NoExport => "'.export NAME' in the module that defines the label exports it",
        JoinFault::LocalClash => "rename the label, or drop the import",
        JoinFault::Line(_) => "",
    }
}

// The bytes that are marked: the name that a line of these words links, or else its statement.
fn span_of(line: &[u8], words: &[Word]) -> Option<Span> {
    let before = words.len().saturating_sub(statement_words(words).len());
    let place = match statement_words(words) {
        [_, Word::Name(_)] => before.saturating_add(1),
        _ => before,
    };
    match token_span(line, place) {
        Some(span) if span.start < span.end => Some(span),
        _ => None,
    }
}

// What is said of a line whose marked bytes are these.
fn said_of(alloc: Global, fault: JoinFault, token: &[u8]) -> Result<Words, AllocError> {
    let mut message = Writer::new(alloc);
    let mut hint = Writer::new(alloc);
    let (before, behind) = told(fault);
    message.push_str(before);
    if !matches!(fault, JoinFault::BadName | JoinFault::Line(_)) {
        message.push_str(text_of(token));
        message.push_str(behind);
    }
    hint.push_str(help(fault));
    Words::new(message, hint)
}

/// The finding of a line for which modules are refused.
pub fn link_finding<'a>(
    alloc: Global,
    text: &'a [u8],
    line: u32,
    fault: JoinFault,
) -> Result<Finding<'a>, AllocError> {
    let words = line_words(alloc, text)?;
    let span = span_of(text, &words);
    let (code, name) = named(fault);
    let found = Found {
        line,
        text,
        span,
        severity: Severity::Error,
        code,
        name,
        follows: None,
    };
    let said = said_of(alloc, fault, bytes_in(text, span))?;
    found.told(alloc, said)
}
