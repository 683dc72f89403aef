//! What is said where a program does not end by itself, or is not read.

use crate::execution::Executed;
use cc_meaning::{Ending, Why};
use cc_program::{Fault, Function, Item, Program, ReadError};
use std::alloc::{AllocError, Global};

/// Why a program cannot go on, in words.
fn why_text(why: Why) -> &'static str {
    match why {
        Why::NoItem => "there is no instruction",
        Why::CodeOperand => "it computes with a code address",
        Why::CodeByte => "it takes a part of a code address",
        Why::Unspecified => "it uses a value that nothing specifies",
        Why::Misaligned => "a halfword or a word at an address that is not a multiple of its size",
        Why::Outside => "a load or a store outside the memory",
        Why::NotCode => "a jump to what is no code address",
        Why::ZeroDivision => "a division by zero",
    }
}

/// The function that an item is in.
fn function_of(program: &Program<'_>, item: usize) -> Option<Function> {
    for function in &program.functions {
        if function.first <= item && item < function.end {
            return Some(*function);
        }
    }
    None
}

/// The line of an item, or of the first instruction after it.
fn line_of(program: &Program<'_>, item: usize) -> u32 {
    for item in program.items.as_slice().get(item..).unwrap_or(&[]) {
        if let Item::Code { line, .. } = item {
            return *line;
        }
    }
    0
}

/// Adds where an item is: `FILE:LINE: in FUNCTION: `.
fn push_place(
    alloc: Global,
    text: &mut Vec<u8>,
    names: &[&str],
    program: &Program<'_>,
    item: usize,
) -> Result<(), AllocError> {
    let Some(function) = function_of(program, item) else {
        return Ok(());
    };
    let name = names.get(function.unit as usize).copied().unwrap_or("");
    let line = line_of(program, item);
    let place = format!(in alloc; "{name}:{line}: in ")?;
    text.extend_from_slice(place.as_bytes())?;
    if let Some(symbol) = program.symbols.at(function.symbol) {
        text.extend_from_slice(symbol.name)?;
    }
    text.extend_from_slice(b": ")?;
    Ok(())
}

/// The line for how a run stands: nothing where the program ended by itself.
pub(crate) fn ending_line(
    alloc: Global,
    names: &[&str],
    program: &Program<'_>,
    executed: Executed,
) -> Result<Vec<u8>, AllocError> {
    let why = match executed.ending {
        Ending::Halted(_) => return Ok(Vec::new(alloc)),
        Ending::Running => "the steps are spent",
        Ending::Stuck(why) => why_text(why),
    };
    let mut text = Vec::new(alloc);
    push_place(alloc, &mut text, names, program, executed.item)?;
    text.extend_from_slice(why.as_bytes())?;
    text.push(b'\n')?;
    Ok(text)
}

/// What is said of a faulty line: `FILE:LINE: why`, and the symbol that it is about.
fn push_fault(
    alloc: Global,
    text: &mut Vec<u8>,
    names: &[&str],
    fault: &Fault,
) -> Result<(), AllocError> {
    let name = names.get(fault.unit as usize).copied().unwrap_or("");
    let number = fault.line;
    let reason = fault.refusal.reason();
    let line = format!(in alloc; "{name}:{number}: {reason}")?;
    text.extend_from_slice(line.as_bytes())?;
    if let Some(symbol) = fault.symbol {
        text.extend_from_slice(b": ")?;
        text.extend_from_slice(symbol)?;
    }
    Ok(())
}

/// The line for texts that are not read.
pub(crate) fn refusal_line(
    alloc: Global,
    names: &[&str],
    error: &ReadError<'_>,
) -> Result<Vec<u8>, AllocError> {
    let mut text = Vec::new(alloc);
    match error {
        ReadError::Fault(fault) => push_fault(alloc, &mut text, names, fault)?,
        ReadError::NoMain => text.extend_from_slice(b"no file defines main")?,
        ReadError::Memory => return Err(AllocError),
    }
    text.push(b'\n')?;
    Ok(text)
}
