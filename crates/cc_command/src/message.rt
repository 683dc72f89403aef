//! What is said where texts are not translated.

use cc_lines::{Lines, MOST_LABELS, first_statement, first_word, label_before, without_comment};
use cc_program::Fault;
use cc_translate::TranslateError;
use std::alloc::{AllocError, Global};

/// The line with a number of a text, without its comment.
fn line_of(text: &[u8], number: u32) -> &[u8] {
    let mut lines = Lines::new(text);
    for _ in 1..number {
        if lines.next_line().is_none() {
            break;
        }
    }
    match lines.next_line() {
        Some(line) => without_comment(line),
        None => &[],
    }
}

/// Whether a statement names a symbol, if it is about one.
fn is_about(statement: &[u8], symbol: Option<&[u8]>) -> bool {
    match symbol {
        Some(symbol) => {
            !symbol.is_empty() && statement.windows(symbol.len()).any(|part| part == symbol)
        }
        None => true,
    }
}

/// The statement of a line that a fault is of: that with its number, or the next one that names its symbol.
fn statement_of<'a>(line: &'a [u8], fault: &Fault) -> &'a [u8] {
    let mut rest = line;
    for number in 0..=line.len() {
        let (first, behind) = first_statement(rest);
        let is_reached = number >= fault.statement as usize && is_about(first, fault.symbol);
        if behind.is_empty() || is_reached {
            return first;
        }
        rest = behind;
    }
    rest
}

/// The mnemonic or directive of a statement, or its last label where it has labels alone.
fn word_of(statement: &[u8]) -> &[u8] {
    let mut rest = statement;
    let mut label: &[u8] = &[];
    for _ in 0..MOST_LABELS {
        let Some((name, behind)) = label_before(rest) else {
            break;
        };
        label = name;
        rest = behind;
    }
    let word = first_word(rest);
    if word.is_empty() { label } else { word }
}

/// The line for a fault: `FILE:LINE: mnemonic or directive: why`, and the symbol that it is about.
fn fault_line(
    alloc: Global,
    names: &[&str],
    texts: &[&[u8]],
    fault: &Fault,
) -> Result<Vec<u8>, AllocError> {
    let mut line = Vec::new(alloc);
    let unit = fault.unit as usize;
    let number = fault.line;
    if let Some(name) = names.get(unit) {
        line.extend_from_slice(name.as_bytes())?;
    }
    let place = format!(in alloc; ":{number}: ")?;
    line.extend_from_slice(place.as_bytes())?;
    if let Some(text) = texts.get(unit) {
        let statement = statement_of(line_of(*text, number), fault);
        line.extend_from_slice(word_of(statement))?;
    }
    line.extend_from_slice(b": ")?;
    line.extend_from_slice(fault.refusal.reason().as_bytes())?;
    if let Some(symbol) = fault.symbol {
        line.extend_from_slice(b": ")?;
        line.extend_from_slice(symbol)?;
    }
    line.push(b'\n')?;
    Ok(line)
}

/// The line for a source of too many statements, with the function that crosses the limit.
fn too_many(alloc: Global, count: u32, crossing: Option<&[u8]>) -> Result<Vec<u8>, AllocError> {
    let text = format!(in alloc; "{count} statements, and a source has at most 20000")?;
    let mut line = text.into_bytes();
    if let Some(name) = crossing {
        line.extend_from_slice(b"; this function crosses the limit: ")?;
        line.extend_from_slice(name)?;
    }
    line.push(b'\n')?;
    Ok(line)
}

/// The line for a symbol that a source cannot name.
fn unnamed(alloc: Global, name: &[u8]) -> Result<Vec<u8>, AllocError> {
    let mut line = Vec::new(alloc);
    line.extend_from_slice(b"a source cannot name this symbol: ")?;
    line.extend_from_slice(name)?;
    line.push(b'\n')?;
    Ok(line)
}

/// The line for what is wrong, or nothing where memory ran out.
pub(crate) fn message(
    alloc: Global,
    names: &[&str],
    texts: &[&[u8]],
    error: &TranslateError,
) -> Result<Vec<u8>, AllocError> {
    let text = match *error {
        TranslateError::Fault(fault) => return fault_line(alloc, names, texts, &fault),
        TranslateError::NoMain => format!(in alloc; "no file defines main\n")?,
        TranslateError::Statements(count, crossing) => {
            return too_many(alloc, count, crossing);
        }
        TranslateError::Words(count) => {
            format!(in alloc;
                "{count} data words, and a source has at most 65280, 2048 of them for heap and stack\n"
            )?
        }
        TranslateError::Line(number) => {
            format!(in alloc;
                "line {number} of the translation has a register, a number or a file that a source cannot name\n"
            )?
        }
        TranslateError::Name(name) => return unnamed(alloc, name),
        TranslateError::Memory => return Err(AllocError),
    };
    Ok(text.into_bytes())
}
