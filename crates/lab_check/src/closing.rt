//! The text of a module alone: it defines what the module imports, so that no fault of it comes from another module.
//!
//! Imports and exports are blank lines, so that the lines keep their numbers. Behind them each imported label is defined, as a label of
//! the kind that it has where it is exported.

use crate::module::{Module, imported};
use mx_source::Label;
use std::alloc::{AllocError, Global};

// Appends lines.
fn push_lines(text: &mut Vec<u8>, lines: &[&[u8]]) -> Result<(), AllocError> {
    for line in lines {
        text.extend_from_slice(line)?;
        text.push(b'\n')?;
    }
    Ok(())
}

// A label is one of the code section, or one of the data section.
fn is_of(label: Label, is_code: bool) -> bool {
    match label {
        Label::Code(_) => is_code,
        Label::Data(_) => !is_code,
    }
}

// Whether a module imports a name as a label of this kind. A label of its own goes before.
fn is_imported(modules: &[Module], place: usize, own: &Module, name: &[u8], is_code: bool) -> bool {
    match imported(modules, place, name) {
        Some(label) => own.label(name).is_none() && is_of(label, is_code),
        None => false,
    }
}

// Appends a definition of a name, where it is imported as a label of this kind.
fn push_import(
    text: &mut Vec<u8>,
    modules: &[Module],
    place: usize,
    own: &Module,
    name: &[u8],
    is_code: bool,
) -> Result<(), AllocError> {
    if is_imported(modules, place, own, name, is_code) {
        text.extend_from_slice(name)?;
        text.extend_from_slice(b":\n")?;
    }
    Ok(())
}

// Appends a section with a definition of each import of this kind.
fn push_section(
    text: &mut Vec<u8>,
    modules: &[Module],
    place: usize,
    own: &Module,
    is_code: bool,
) -> Result<(), AllocError> {
    text.extend_from_slice(if is_code { b".code\n" } else { b".data\n" })?;
    for name in &own.imports {
        push_import(text, modules, place, own, name, is_code)?;
    }
    Ok(())
}

/// The text of the module at this place, with definitions of what it imports behind it.
pub fn closed_text(
    alloc: Global,
    modules: &[Module],
    place: usize,
    own: &Module,
) -> Result<Vec<u8>, AllocError> {
    let mut text = Vec::new(alloc);
    push_lines(&mut text, &own.lines)?;
    push_section(&mut text, modules, place, own, true)?;
    push_section(&mut text, modules, place, own, false)?;
    Ok(text)
}
