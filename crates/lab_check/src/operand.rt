//! What may have been meant by an operand that is not in its place.

use crate::sentence::{name_of, text_of, token_of};
use lab_faults::Shown;
use lab_writer::Writer;
use mx_asm::{line_words, statement_words};
use mx_faults::{Role, places};
use mx_lines::{Word, spells};
use std::alloc::{AllocError, Global};

// The bytes of the line before those that are shown.
fn front_of<'a>(shown: &Shown<'a>) -> &'a [u8] {
    match shown.span {
        Some(span) => shown.text.get(..span.start).unwrap_or(&[]),
        None => &[],
    }
}

// How many words of the statement come before the bytes that are shown.
fn words_before(alloc: Global, shown: &Shown) -> Result<usize, AllocError> {
    let words = line_words(alloc, front_of(shown))?;
    Ok(statement_words(&words).len())
}

// A `,` was left out.
fn push_comma_hint(text: &mut Writer, token: &[u8]) {
    match token {
        [b',' | b'[' | b']' | b':', ..] => {}
        _ => text.push_parts(&["a ',' is missing before '", text_of(token), "'"]),
    }
}

// What is said of a number, with or without its `#`, in the place of a register; nothing of something else.
fn register_told(name: &[u8], token: &[u8]) -> &'static str {
    match token {
        [b'#' | b'-' | b'0'..=b'9', ..] => {
            if spells(name, "add") {
                "'addi R,#NUMBER,R' adds a number"
            } else if spells(name, "sub") {
                "'addi R,#-NUMBER,R' takes a number away"
            } else {
                "'addi r0,#NUMBER,R' puts a number into a register"
            }
        }
        _ => "",
    }
}

// The `#` was left out, or a register is in the place of a number.
fn push_hash_hint(text: &mut Writer, name: &[u8], token: &[u8]) {
    match token {
        [b'-' | b'0'..=b'9', ..] => {
            text.push_parts(&["a number has a '#' before it: '#", text_of(token), "'"]);
        }
        [b'r' | b'R', ..] if spells(name, "addi") => {
            text.push_str("'add R,R,R' adds two registers");
        }
        _ => {}
    }
}

// What is expected where an address begins.
fn open_told(name: &[u8]) -> &'static str {
    if spells(name, "st") {
        "the address comes first: 'st OFFSET[R],R'"
    } else {
        "the address comes first: 'ld OFFSET[R],R'"
    }
}

// What is said of something else in a place; nothing where nothing is known.
fn place_told(role: Role, name: &[u8], token: &[u8]) -> &'static str {
    match role {
        Role::Register => register_told(name, token),
        Role::Open => open_told(name),
        Role::Offset => "a number or a data label comes before the '[', as '0[r1]'",
        Role::Immediate => { "a number follows the '#': 'la LABEL,R' gives the address of a label" }
        Role::CodeName | Role::AnyName => "expected the name of a label",
        _ => "",
    }
}

// Appends the hint for something else in a place.
fn push_place_hint(text: &mut Writer, role: Role, name: &[u8], token: &[u8]) {
    match role {
        Role::Comma => push_comma_hint(text, token),
        Role::Hash => push_hash_hint(text, name, token),
        _ => text.push_str(place_told(role, name, token)),
    }
}

// Appends the hint where something else is shown, after so many words of the statement with this name and these places.
fn push_hint_after(text: &mut Writer, before: usize, roles: &[Role], name: &[u8], token: &[u8]) {
    let Some(place) = before.checked_sub(1) else {
        return;
    };
    match roles.get(place) {
        Some(role) => push_place_hint(text, *role, name, token),
        None => text.push_str("there is an operand too many; a comment begins with ';'"),
    }
}

/// F4: appends what may have been meant by the word that is not in its place.
pub fn push_operand_hint(text: &mut Writer, shown: &Shown, words: &[Word]) {
    let alloc = text.alloc();
    let roles = text.take(places(alloc, statement_words(words))).flatten();
    let before = text.take(words_before(alloc, shown));
    if let (Some(roles), Some(before)) = (roles, before) {
        push_hint_after(text, before, &roles, name_of(words), token_of(shown));
    }
}
