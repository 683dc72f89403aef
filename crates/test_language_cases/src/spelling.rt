//! Instructions as the cases spell them: as `Debug` prints them, with a number for each register.
use mx_isa::Inst;
use mx_source::Statement;
use std::alloc::{AllocError, Global};

/// How `Debug` prints a register up to its number, and behind it.
const REGISTER: (&str, &str) = ("Reg { number: ", " }");

/// A text of `Debug`, with a number for each register.
fn with_numbers(alloc: Global, text: &str) -> Result<String, AllocError> {
    let mut spelled = String::new(alloc);
    for part in text.split(REGISTER.0) {
        let (front, back) = part.split_once(REGISTER.1).unwrap_or((part, ""));
        spelled.push_str(front)?;
        spelled.push_str(back)?;
    }
    Ok(spelled)
}

fn instruction(alloc: Global, inst: &Inst) -> Result<String, AllocError> {
    let text = format!(in alloc; "{inst:?}")?;
    with_numbers(alloc, text.as_str())
}

/// A word's instruction, or `none`.
pub fn spelled(alloc: Global, inst: Option<Inst>) -> Result<String, AllocError> {
    match &inst {
        Some(inst) => instruction(alloc, inst),
        None => String::from_str(alloc, "none"),
    }
}

fn in_source(alloc: Global, statement: &Statement) -> Result<String, AllocError> {
    let text = format!(in alloc; "{statement:?}")?;
    with_numbers(alloc, text.as_str())
}

/// A statement. One that is an instruction is spelled as such.
pub fn statement(alloc: Global, statement: &Statement) -> Result<String, AllocError> {
    match statement {
        Statement::Plain(inst) => instruction(alloc, inst),
        _ => in_source(alloc, statement),
    }
}
