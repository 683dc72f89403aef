//! Which labels of a program of modules are used, by whichever module.
use crate::module::Module;
use mx_asm::{line_words, statement_words};
use mx_lines::Word;
use mx_source::Source;
use std::alloc::{AllocError, Global};

// The name in the program of a label that the module at this place does not export.
fn local_name(alloc: Global, name: &[u8], place: usize) -> Result<Vec<u8>, AllocError> {
    let number = place.saturating_add(1);
    let suffix = format!(in alloc; "..{number}")?;
    let mut bytes = Vec::from_slice(alloc, name)?;
    bytes.extend_from_slice(suffix.as_bytes())?;
    Ok(bytes)
}

// The place of the label that a name of the module at this place stands for, among those of the program.
fn label_of(
    alloc: Global,
    source: &Source,
    name: &[u8],
    place: usize,
) -> Result<Option<usize>, AllocError> {
    let local = local_name(alloc, name, place)?;
    match source.labels().get_index_of(local.as_slice()) {
        Some(index) => Ok(Some(index)),
        None => Ok(source.labels().get_index_of(name)),
    }
}

// Marks the label that a word of the module at this place names.
fn mark_word(
    alloc: Global,
    source: &Source,
    word: Word,
    place: usize,
    used: &mut [bool],
) -> Result<(), AllocError> {
    let Word::Name(name) = word else {
        return Ok(());
    };
    if let Some(index) = label_of(alloc, source, name, place)? {
        if let Some(mark) = used.get_mut(index) {
            *mark = true;
        }
    }
    Ok(())
}

// Marks the labels that the operands of a line of the module at this place name.
fn mark_line(
    alloc: Global,
    source: &Source,
    line: &[u8],
    place: usize,
    used: &mut [bool],
) -> Result<(), AllocError> {
    let words = line_words(alloc, line)?;
    let [_, operands @ ..] = statement_words(&words) else {
        return Ok(());
    };
    for word in operands {
        mark_word(alloc, source, *word, place, used)?;
    }
    Ok(())
}

// Marks the labels that the lines of the module at this place name.
fn mark_lines(
    alloc: Global,
    source: &Source,
    lines: &[&[u8]],
    place: usize,
    used: &mut [bool],
) -> Result<(), AllocError> {
    for line in lines {
        mark_line(alloc, source, line, place, used)?;
    }
    Ok(())
}

/// For each label of the source that modules join as, in order, whether an operand names it in its own module or in one that imports
/// it.
pub fn used_in(
    alloc: Global,
    source: &Source,
    modules: &[Module],
) -> Result<Vec<bool>, AllocError> {
    let mut used = vec![in alloc; false; source.labels().len()]?;
    for (place, module) in modules.iter().enumerate() {
        mark_lines(alloc, source, &module.lines, place, &mut used)?;
    }
    Ok(used)
}
