//! Cases of instructions as words.
use crate::texts::{Assembled, assemble_text};
use anyhow::{Context, Result, bail, ensure};
use mx_code::encode;
use mx_handler::{SHIPPED, handler_source};
use mx_isa::Inst;
use mx_source::{Source, Statement};
use std::alloc::Global;
use test_case_files::{answered, before, number};

/// The only instruction of a source, where its word does not depend on its place.
fn only_instruction(source: &Source) -> Result<Inst> {
    let [statement] = source.statements() else {
        bail!("not one statement");
    };
    match statement {
        Statement::Plain(inst) => Ok(*inst),
        Statement::Halt => Ok(Inst::Halt),
        _ => bail!("a word that depends on its place"),
    }
}

/// The word of the only instruction of a source, in hexadecimal.
fn only_word(alloc: Global, source: &Source) -> Result<String> {
    let inst = only_instruction(source)?;
    ensure!(inst.fits(), "no word spells the instruction");
    Ok(format!(in alloc; "{:08x}", encode(&inst))?)
}

/// The word that a text of one instruction assembles to, in hexadecimal, or its fault.
fn assembled_word(alloc: Global, text: &str) -> Result<String> {
    match assemble_text(alloc, text.as_bytes())? {
        Assembled::Source(source) => only_word(alloc, &source),
        Assembled::Refused { fault, .. } => Ok(fault),
    }
}

/// A text and its word, for the case `TEXT -> WORD`.
pub fn text(alloc: Global, line: &str) -> Result<String> {
    let text = before(line, " -> ")?;
    let word = assembled_word(alloc, text)?;
    answered(alloc, text, word.as_str())
}

/// The text and the word that the handler has at an address.
fn handler_row(index: usize) -> Result<(&'static str, u32)> {
    let text = *handler_source()
        .get(index)
        .context("not an address of the handler")?;
    let word = *SHIPPED.get(index).context("not an address of the handler")?;
    Ok((text, word))
}

/// A word, and before it what the assembler makes of its text where it is not that word.
fn made_and_word(alloc: Global, text: &str, word: u32) -> Result<String> {
    let word = format!(in alloc; "{word:08x}")?;
    let made = assembled_word(alloc, text)?;
    if made.as_str() == word.as_str() {
        return Ok(word);
    }
    Ok(format!(in alloc; "{made}, {word}")?)
}

/// The text and the word that the handler has at an address, for the case `ADDRESS TEXT -> WORD`. What the assembler makes of
/// the text stands before the word where it is not that word, as the fault of an instruction that only the system may use.
pub fn handler(alloc: Global, line: &str) -> Result<String> {
    let address = before(line, " ")?;
    let (text, word) = handler_row(number(address)? as usize)?;
    let word = made_and_word(alloc, text, word)?;
    Ok(format!(in alloc; "{address} {text} -> {word}")?)
}
