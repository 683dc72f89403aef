//! The faulty lines of a text.
ghost use Rattle.std.specs.Prelude.{◌≤◌, length};

use anyhow::{Result, ensure};
use mx_faults::{LineFault, Span, assemble_all};
use std::alloc::{AllocError, Global};
use test_case_files::{answered, before, text_of_lines};

/// How many faulty lines a case tells at most.
const MOST_FOUND: u32 = 100;

/// Appends the bytes that show a fault, as `START-END`, or `-` where none do.
fn push_span(text: &mut String, span: Option<Span>) -> Result<(), AllocError> {
    match span {
        Some(span) => write!(text, "{}-{}", span.start, span.end),
        None => text.push('-'),
    }
}

/// Appends a faulty line, as `LINE FAULT START-END`.
fn push_fault(text: &mut String, found: &LineFault) -> Result<(), AllocError> {
    write!(text, "{} {} ", found.line, found.fault)?;
    push_span(text, found.span)
}

/// Faulty lines, separated by `, `.
fn faults_text(alloc: Global, found: &[LineFault]) -> Result<String, AllocError> {
    let mut text = String::new(alloc);
    for fault in found {
        if !text.is_empty() {
            text.push_str(", ")?;
        }
        push_fault(&mut text, fault)?;
    }
    Ok(text)
}

/// The faulty lines of a text.
fn found_in(alloc: Global, text: &[u8]) -> Result<Vec<LineFault>> {
    ensure!(text.len() <= 4_194_304, "the text is too long");
    Ok(assemble_all(alloc, 256, 65536, text, MOST_FOUND)?)
}

fn faults_of(alloc: Global, text: &[u8]) -> Result<String> {
    let found = found_in(alloc, text)?;
    Ok(faults_text(alloc, &found)?)
}

fn faults_of_lines(alloc: Global, lines: &str) -> Result<String> {
    let text = text_of_lines(alloc, lines)?;
    faults_of(alloc, text.as_slice())
}

/// All faulty lines of the text of a case `TEXT -> LINE FAULT START-END, LINE FAULT START-END` and so on.
pub fn faulty_lines(alloc: Global, case: &str) -> Result<String> {
    let lines = before(case, " -> ")?;
    let answer = faults_of_lines(alloc, lines)?;
    answered(alloc, lines, answer.as_str())
}
