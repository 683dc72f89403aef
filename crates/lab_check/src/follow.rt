//! Which faults only follow from an earlier line.
//!
//! An unknown directive in the place of `.code` or `.data` makes a fault of each statement of the section that it was meant to begin.
//! A line that does not split into tokens defines no label, which makes a fault of each line that names its label.

use crate::sentence::{is_mnemonic, text_of, token_of};
use lab_faults::{Shown, line_at};
use lab_slips::nearest;
use mx_asm::{line_words, statement_words};
use mx_lines::{Fault, Word, spells};
use std::alloc::{AllocError, Global};

/// The directives that begin a section.
const SECTIONS: [&str; 2] = [".code", ".data"];

/// Directives of other assemblers that begin a section.
const FOREIGN_SECTIONS: [&str; 6] = [".text", ".section", ".bss", ".rodata", ".rdata", ".sdata"];

// One of some directives is this one, in either case.
fn is_one_of(names: &[&str], name: &[u8]) -> bool {
    for one in names {
        if spells(name, one) {
            return true;
        }
    }
    false
}

// The statement of these words begins a section.
fn begins_section(words: &[Word]) -> bool {
    match statement_words(words) {
        [Word::Name(name)] => is_one_of(&SECTIONS, name),
        _ => false,
    }
}

// One of the lines from a number on begins a section, before the line with another number.
fn has_section_between(
    alloc: Global,
    lines: &[&[u8]],
    from: u32,
    before: u32,
) -> Result<bool, AllocError> {
    for number in from..before {
        let words = line_words(alloc, line_at(lines, number))?;
        if begins_section(&words) {
            return Ok(true);
        }
    }
    Ok(false)
}

// The token is an unknown directive that was meant to begin a section.
fn is_meant_section(alloc: Global, token: &[u8]) -> Result<bool, AllocError> {
    if is_one_of(&FOREIGN_SECTIONS, token) {
        return Ok(true);
    }
    if !token.starts_with(b".") || is_one_of(&SECTIONS, token) {
        return Ok(false);
    }
    let near = nearest(alloc, text_of(token), &SECTIONS)?;
    Ok(near.is_some())
}

// A faulty line has an unknown directive that was meant to begin a section.
fn loses_section(alloc: Global, shown: &Shown) -> Result<bool, AllocError> {
    match shown.fault {
        Fault::BadDirective => is_meant_section(alloc, token_of(shown)),
        _ => Ok(false),
    }
}

// The statement of a faulty line would be right in the other section.
fn is_in_other_section(token: &[u8]) -> bool {
    is_mnemonic(token) || spells(token, ".word") || spells(token, ".space")
}

// The text of a line begins with a name and a colon.
fn seems_to_define(text: &[u8], name: &[u8]) -> bool {
    match text_of(text).split_once(":") {
        Some((front, _)) => front.trim().as_bytes() == name,
        None => false,
    }
}

// A line does not split into tokens, and would define the label with this name if it did.
fn hides_label(shown: &Shown, name: &[u8]) -> bool {
    match shown.fault {
        Fault::BadByte | Fault::BadToken => seems_to_define(shown.text, name),
        _ => false,
    }
}

// The first line that hides the label with this name.
fn hidden_in(faulty: &[Shown], name: &[u8]) -> Option<u32> {
    for one in faulty {
        if hides_label(one, name) {
            return Some(one.line);
        }
    }
    None
}

// The line from which the fault of a line follows, where `section` is the last one that lost a section.
fn cause_of(one: &Shown, faulty: &[Shown], section: Option<u32>) -> Option<u32> {
    match one.fault {
        Fault::BadDirective if is_in_other_section(token_of(one)) => section,
        Fault::UndefinedLabel => hidden_in(faulty, token_of(one)),
        _ => None,
    }
}

// The last line that lost a section, once the lines up to that of `one` are known: none where a section begins in between.
fn section_before(
    alloc: Global,
    lines: &[&[u8]],
    section: Option<u32>,
    seen: u32,
    one: &Shown,
) -> Result<Option<u32>, AllocError> {
    if section.is_some() && has_section_between(alloc, lines, seen, one.line)? {
        return Ok(None);
    }
    Ok(section)
}

// The same after a faulty line.
fn section_after(
    alloc: Global,
    section: Option<u32>,
    one: &Shown,
) -> Result<Option<u32>, AllocError> {
    if loses_section(alloc, one)? {
        return Ok(Some(one.line));
    }
    Ok(section)
}

/// For each faulty line the line from which its fault follows, where it is no fault of its own.
pub fn causes_of(
    alloc: Global,
    lines: &[&[u8]],
    faulty: &[Shown],
) -> Result<Vec<Option<u32>>, AllocError> {
    let mut causes = Vec::new(alloc);
    let mut section = None;
    let mut seen = 1u32;
    for one in faulty {
        section = section_before(alloc, lines, section, seen, one)?;
        causes.push(cause_of(one, faulty, section))?;
        section = section_after(alloc, section, one)?;
        seen = one.line;
    }
    Ok(causes)
}
