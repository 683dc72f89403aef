//! What is wrong with a faulty line, in a sentence.
use lab_faults::Shown;
use lab_writer::Writer;
use mx_asm::statement_words;
use mx_faults::Span;
use mx_lines::{Fault, MNEMONICS, Mnemonic, Word, mnemonic_named, spells};
use std::alloc::{AllocError, Global};
use std::str;

/// The byte order mark, which cannot be seen.
pub const BYTE_ORDER_MARK: &str = "\u{feff}";

/// What is expected in the place of a byte or a character that only a comment may have.
const OUTSIDE_COMMENT: &str = " outside a comment: expected a tab or a byte from 32 to 126";

// The operands of a mnemonic.
fn operands_of(mnemonic: Mnemonic) -> &'static str {
    match mnemonic {
        Mnemonic::Compute(_) => "R,R,R",
        Mnemonic::Not | Mnemonic::Mstart | Mnemonic::Mov | Mnemonic::CallReg => "R,R",
        Mnemonic::Branch(_) | Mnemonic::SwappedBranch(_) => "R,R,LABEL",
        Mnemonic::Asr | Mnemonic::Addi => "R,#NUMBER,R",
        Mnemonic::Sh => "R,R,#NUMBER,R",
        Mnemonic::MoveFrom => "md,R",
        Mnemonic::MoveTo => "R,md",
        Mnemonic::Load | Mnemonic::Store => "OFFSET[R],R",
        Mnemonic::LoadAddress | Mnemonic::Call => "LABEL,R",
        Mnemonic::Goto => "LABEL",
        Mnemonic::JumpReg => "R",
        Mnemonic::Nop | Mnemonic::Halt | Mnemonic::System => "no operands",
    }
}

/// The mnemonics of the language but for those of the system.
pub fn mnemonics(alloc: Global) -> Result<Vec<&'static str>, AllocError> {
    let mut names = Vec::new(alloc);
    for (name, mnemonic) in &MNEMONICS {
        if !is_system(*mnemonic) {
            names.push(*name)?;
        }
    }
    Ok(names)
}

// The mnemonic is one that only the system may use.
fn is_system(mnemonic: Mnemonic) -> bool {
    match mnemonic {
        Mnemonic::System => true,
        _ => false,
    }
}

/// The name is a mnemonic of the language, and none of those of the system.
pub fn is_mnemonic(name: &[u8]) -> bool {
    match mnemonic_named(name) {
        Some(mnemonic) => !is_system(mnemonic),
        None => false,
    }
}

/// One of the names is this one, in either case.
pub fn is_among(names: &[&str], name: &[u8]) -> bool {
    for one in names {
        if spells(name, one) {
            return true;
        }
    }
    false
}

/// The operands that a mnemonic or a directive expects.
pub fn form_of(name: &[u8]) -> &'static str {
    if spells(name, ".space") {
        return "NUMBER";
    }
    if spells(name, ".word") {
        return "VALUE,VALUE and so on";
    }
    match mnemonic_named(name) {
        Some(mnemonic) => operands_of(mnemonic),
        None => "no operands",
    }
}

/// Bytes as a text; none where they are not UTF-8.
pub fn text_of(bytes: &[u8]) -> &str {
    str::from_utf8(bytes).unwrap_or("")
}

/// The bytes of a part of a line, if there is one.
pub fn bytes_in(line: &[u8], span: Option<Span>) -> &[u8] {
    match span {
        Some(span) => line.get(span.start..span.end).unwrap_or(&[]),
        None => &[],
    }
}

/// The bytes of a line that are shown.
pub fn token_of<'a>(shown: &Shown<'a>) -> &'a [u8] {
    bytes_in(shown.text, shown.span)
}

/// The first word of a statement, if it is a name.
pub fn name_of<'a>(words: &[Word<'a>]) -> &'a [u8] {
    match statement_words(words) {
        [Word::Name(name), ..] => name,
        _ => &[],
    }
}

// The numbers that an operand of a mnemonic or a directive may be.
fn range_of(name: &[u8]) -> &'static str {
    if spells(name, "asr") || spells(name, "sh") {
        "0 to 31"
    } else if spells(name, ".space") {
        "0 to 65,280"
    } else if spells(name, ".word") {
        "-2,147,483,648 to 4,294,967,295"
    } else {
        "-65,536 to 65,535"
    }
}

// Appends a part of a line between the marks of a quotation.
fn push_quoted(text: &mut Writer, token: &[u8]) {
    text.push_parts(&["'", text_of(token), "'"]);
}

// Appends a token, and what is said of it.
fn push_told(text: &mut Writer, token: &[u8], told: &str) {
    push_quoted(text, token);
    text.push_parts(&[" ", told]);
}

// Appends what is wrong, the token, and what was expected.
fn push_wrong(text: &mut Writer, wrong: &str, token: &[u8], expected: &str) {
    text.push_parts(&[wrong, " "]);
    push_quoted(text, token);
    text.push_str(expected);
}

// Appends what a mnemonic or a directive expects, and the token that was found in its place.
fn push_misplaced(text: &mut Writer, name: &[u8], token: &[u8]) {
    push_quoted(text, name);
    text.push_parts(&[" expects ", form_of(name), "; found "]);
    push_quoted(text, token);
}

// F4: a word that is not in its place, or a word that is missing.
fn push_operands(text: &mut Writer, name: &[u8], token: &[u8]) {
    if name.is_empty() {
        text.push_str("expected an instruction or a directive; found ");
        push_quoted(text, token);
    } else if token != name {
        push_misplaced(text, name, token);
    } else {
        text.push_parts(&["too few operands: expected ", form_of(name)]);
    }
}

// F6: a number that is too wide for its place.
fn push_range(text: &mut Writer, name: &[u8], token: &[u8]) {
    text.push_parts(&["number ", text_of(token), " is out of range"]);
    text.push_parts(&[": expected ", range_of(name)]);
}

// F9: what is said of a label of the other kind.
fn kind_told(name: &[u8]) -> &'static str {
    if spells(name, "ld") || spells(name, "st") {
        "is a code label: expected a number or a data label"
    } else {
        "is a data label: expected a code label"
    }
}

// F5: the registers that an instruction with this name may have in the place of a wrong one.
fn registers_of(name: &[u8]) -> &'static str {
    if spells(name, "movfrs") || spells(name, "movtos") {
        ": expected r0 to r31, or md in the place of the special register"
    } else {
        ": expected r0 to r31"
    }
}

// F11: a name that is no directive, or an instruction in the data section.
fn push_statement(text: &mut Writer, token: &[u8]) {
    if token.starts_with(b".") {
        let known = ": expected .code, .data, .word, .space or .input";
        push_wrong(text, "unknown directive", token, known);
    } else {
        push_wrong(text, "instruction", token, " in the data section");
    }
}

// F11: a directive of the data section, in the other one or without its operands.
fn push_data_directive(text: &mut Writer, token: &[u8]) {
    push_quoted(text, token);
    text.push_parts(&[
        " belongs after a '.data' line, and expects ",
        form_of(token),
    ]);
}

// F11: a label that begins with `.`, an unknown directive, or a statement in the other section.
fn push_directive(text: &mut Writer, name: &[u8], token: &[u8]) {
    if spells(token, ".word") || spells(token, ".space") {
        push_data_directive(text, token);
    } else if token == name {
        push_statement(text, token);
    } else if token.starts_with(b".") {
        let expected = ": a label does not begin with '.'";
        push_wrong(text, "invalid label", token, expected);
    } else {
        push_misplaced(text, name, token);
    }
}

// F2: bytes that are no token.
fn push_invalid(text: &mut Writer, token: &[u8]) {
    match token {
        [b'0'..=b'9', ..] => push_wrong(text, "invalid number", token, ""),
        _ => {
            let expected = ": expected a name, a number or one of , [ ] # :";
            push_wrong(text, "invalid token", token, expected);
        }
    }
}

// Appends the sentence of a fault that a token shows.
fn push_token(text: &mut Writer, fault: Fault, name: &[u8], token: &[u8]) {
    match fault {
        Fault::BadToken => push_invalid(text, token),
        Fault::UnknownMnemonic => push_wrong(text, "unknown instruction", token, ""),
        Fault::BadOperands => push_operands(text, name, token),
        Fault::BadRegister => push_wrong(text, "invalid register", token, registers_of(name)),
        Fault::NumberOutOfRange => push_range(text, name, token),
        Fault::DuplicateLabel => push_wrong(text, "duplicate label", token, ""),
        Fault::UndefinedLabel => push_wrong(text, "undefined label", token, ""),
        Fault::WrongLabelKind => push_told(text, token, kind_told(name)),
        Fault::SystemInstruction => push_told(
            text,
            token,
            "is reserved for the system: a source moves md only, and has no jpc and jpcrs",
        ),
        _ => push_directive(text, name, token),
    }
}

// The character that begins with a byte of a line, where the bytes from there on are one in UTF-8.
fn char_at(line: &[u8], start: usize) -> Option<&str> {
    for count in 1..5usize {
        let end = start.saturating_add(count);
        if let Ok(text) = str::from_utf8(line.get(start..end).unwrap_or(&[])) {
            return Some(text);
        }
    }
    None
}

/// The character at the front of the bytes that are shown, as it was typed.
pub fn char_of<'a>(shown: &Shown<'a>) -> Option<&'a str> {
    match shown.span {
        Some(span) => char_at(shown.text, span.start),
        None => None,
    }
}

// A character that is none of ASCII can be shown: a terminal may obey the controls U+0080 to U+009F, and a byte order mark cannot
// be seen.
fn can_be_shown(typed: &str) -> bool {
    !matches!(typed.as_bytes(), [0xc2, 0x80..=0x9f]) && typed != BYTE_ORDER_MARK
}

// F1: the byte.
fn push_byte(text: &mut Writer, shown: &Shown) {
    let byte = token_of(shown).first().copied().unwrap_or(0);
    match char_of(shown) {
        Some(typed) if byte > 127 && can_be_shown(typed) => {
            text.push_parts(&["invalid character '", typed, "'", OUTSIDE_COMMENT]);
        }
        _ => text.push_numbers(&["invalid byte ", OUTSIDE_COMMENT], &[u64::from(byte)]),
    }
}

/// Appends what is wrong with a faulty line whose statement begins with a name, and what was expected.
pub fn push_sentence(text: &mut Writer, shown: &Shown, name: &[u8]) {
    match shown.fault {
        Fault::BadByte => push_byte(text, shown),
        Fault::TooManyInstructions => {
            text.push_str("too many instructions: a source has at most 20,000");
        }
        Fault::DataFull => {
            text.push_str("the data section is full: its last word is at address 65,535");
        }
        Fault::LineTooLong => text.push_numbers(
            &["the line has ", " bytes: a line has at most 255"],
            &[shown.text.len() as u64],
        ),
        fault => push_token(text, fault, name, token_of(shown)),
    }
}
