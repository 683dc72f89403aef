//! The label of a row.
use crate::subject::Subject;
use lab_words::{PlaceNames, push_instruction};
use lab_writer::Writer;
use mx_code::decode;
use mx_isa::Inst;
use std::alloc::{AllocError, Global};

/// Appends an address in hexadecimal; dashes where the frames end before it is known.
pub fn push_address(text: &mut Writer, address: Option<u32>) {
    match address {
        Some(address) => write!(text, "{address:08x}"),
        None => text.push_str("--------"),
    }
}

// How many signs a mark and a line take.
fn signs_of(mark: &str, line: Option<u32>) -> usize {
    match line {
        Some(line) => {
            let more = line.checked_ilog10().unwrap_or(0);
            mark.len().saturating_add(1).saturating_add(more as usize)
        }
        None => mark.len(),
    }
}

/// The bytes of the text of most instructions at most.
const INSTRUCTION: usize = 32;

// The text of an instruction that stands at an address, in assembly language.
fn text_of(
    alloc: Global,
    names: &PlaceNames,
    aim: Option<u32>,
    address: u32,
    inst: &Inst,
) -> Result<String, AllocError> {
    let mut text = String::with_capacity(alloc, INSTRUCTION)?;
    push_instruction(&mut text, names, aim, address, inst)?;
    Ok(text)
}

// Appends the same.
fn push_inst(text: &mut Writer, subject: &Subject, address: u32, inst: &Inst) {
    let (names, aim) = (subject.names, subject.aim_at(address));
    if let Some(words) = text.take(text_of(text.alloc(), names, aim, address, inst)) {
        text.push_str(&words);
    }
}

// Appends a word of an address.
fn push_code_word(text: &mut Writer, subject: &Subject, address: u32, word: u32) {
    match decode(word) {
        Some(inst) => push_inst(text, subject, address, &inst),
        None => write!(text, "{word:08x}"),
    }
}

impl Subject<'_> {
    /// Appends the word at an address, in assembly language.
    pub fn push_word(&self, text: &mut Writer, address: Option<u32>) {
        if let Some(address) = address {
            if let Some(word) = self.word_at(address) {
                push_code_word(text, self, address, word);
            }
        }
    }

    /// Appends where the word at an address comes from, behind blanks where it takes less than a width: a line, `+` and a line for a
    /// copy, `-` for a no-op that was put in, `h` for the handler.
    pub fn push_origin(&self, text: &mut Writer, address: Option<u32>, width: usize) {
        let (mark, line) = self.origin_of(address);
        text.push_blanks(width.saturating_sub(signs_of(mark, line)));
        text.push_str(mark);
        if let Some(line) = line {
            text.push_number(u64::from(line));
        }
    }
}

/// Appends the word at an address where there is room for so many signs: of a longer one, which a long name makes, the front
/// and two dots.
pub fn push_fitted_word(text: &mut Writer, subject: &Subject, address: Option<u32>, room: usize) {
    let place = text.len();
    subject.push_word(text, address);
    text.fit(place, room);
}
