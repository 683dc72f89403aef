//! Statements in assembly language.
use lab_words::{PlaceNames, push_instruction};
use mx_isa::{CODE_BASE, Reg};
use mx_source::{Statement, branch_name};
use std::alloc::{AllocError, Global};

// The address that a statement has in the names of a source's places, where each statement is a word.
pub(crate) fn address_of(statement: u32) -> u32 {
    CODE_BASE.saturating_add(statement)
}

// Appends the label of a statement.
fn push_label(text: &mut String, names: &PlaceNames, target: u32) -> Result<(), AllocError> {
    match names.code_name(address_of(target)) {
        Some(name) => text.push_str(str::from_utf8(name).unwrap_or("?")),
        None => text.push('?'),
    }
}

// Appends a word, a label and a register.
fn push_aim(
    text: &mut String,
    names: &PlaceNames,
    word: &str,
    target: u32,
    dest: Reg,
) -> Result<(), AllocError> {
    text.push_str(word)?;
    push_label(text, names, target)?;
    let dest = dest.number();
    write!(text, ",r{dest}")
}

// Appends a statement.
fn push_statement(
    text: &mut String,
    names: &PlaceNames,
    statement: &Statement,
) -> Result<(), AllocError> {
    match *statement {
        Statement::Plain(inst) => push_instruction(text, names, None, 0, &inst),
        Statement::LaCode { dest, target } => push_aim(text, names, "la ", target, dest),
        Statement::Branch { a, b, cond, target } => {
            let (word, a, b) = (branch_name(cond), a.number(), b.number());
            write!(text, "{word} r{a},r{b},")?;
            push_label(text, names, target)
        }
        Statement::Call { dest, target } => push_aim(text, names, "call ", target, dest),
        Statement::CallReg { a, dest } => {
            let (a, dest) = (a.number(), dest.number());
            write!(text, "callr r{a},r{dest}")
        }
        Statement::JumpReg { a } => {
            let a = a.number();
            write!(text, "jr r{a}")
        }
        Statement::Halt => text.push_str("halt"),
    }
}

/// A statement in assembly language.
pub(crate) fn statement_text(
    alloc: Global,
    names: &PlaceNames,
    statement: &Statement,
) -> Result<String, AllocError> {
    let mut text = String::new(alloc);
    push_statement(&mut text, names, statement)?;
    Ok(text)
}
