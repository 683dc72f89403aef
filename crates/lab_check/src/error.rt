//! What a source is refused for, as it is told.
use crate::finding::{Finding, Found, Severity, Words};
use crate::hint::push_hint;
use crate::labels::Definition;
use crate::sentence::{name_of, push_sentence};
use lab_faults::Shown;
use lab_writer::Writer;
use mx_asm::line_words;
use mx_lines::{Fault, Word};
use std::alloc::{AllocError, Global};

// The number of a fault and its name, between which a space stands in its text.
fn number_and_name(fault: Fault) -> (&'static str, &'static str) {
    let text = fault.text();
    text.split_once(' ').unwrap_or((text, ""))
}

// What is found at a faulty line.
fn found_at<'a>(shown: &Shown<'a>, follows: Option<u32>) -> Found<'a> {
    let (code, name) = number_and_name(shown.fault);
    Found {
        line: shown.line,
        text: shown.text,
        span: shown.span,
        severity: Severity::Error,
        code,
        name,
        follows,
    }
}

// The hint of a faulty line of these words: the line from which its fault follows, or what may have been meant.
fn push_help(
    hint: &mut Writer,
    shown: &Shown,
    words: &[Word],
    definitions: &[Definition],
    follows: Option<u32>,
) {
    match follows {
        Some(line) => hint.push_numbers(&["this follows from line ", ""], &[u64::from(line)]),
        None => push_hint(hint, shown, words, definitions),
    }
}

// What is said of a faulty line of these words.
fn said_by(
    alloc: Global,
    shown: &Shown,
    words: &[Word],
    definitions: &[Definition],
    follows: Option<u32>,
) -> Result<Words, AllocError> {
    let mut message = Writer::new(alloc);
    let mut hint = Writer::new(alloc);
    push_sentence(&mut message, shown, name_of(words));
    push_help(&mut hint, shown, words, definitions, follows);
    Words::new(message, hint)
}

// What is said of a faulty line.
fn said_of(
    alloc: Global,
    shown: &Shown,
    definitions: &[Definition],
    follows: Option<u32>,
) -> Result<Words, AllocError> {
    let words = line_words(alloc, shown.text)?;
    said_by(alloc, shown, &words, definitions, follows)
}

/// The finding of a faulty line, whose fault may follow from another line.
pub fn fault_finding<'a>(
    alloc: Global,
    shown: &Shown<'a>,
    definitions: &[Definition],
    follows: Option<u32>,
) -> Result<Finding<'a>, AllocError> {
    let said = said_of(alloc, shown, definitions, follows)?;
    found_at(shown, follows).told(alloc, said)
}
