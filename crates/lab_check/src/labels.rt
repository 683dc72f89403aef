//! The labels that a text defines.
ghost use Rattle.std.specs.Prelude.{◌≡◌, find, option_map};
ghost use Rattle.std.specs.Str.{bytes_eq};

use crate::sentence::text_of;
use mx_asm::{begins_label, first_name, line_words};
use mx_lines::Word;
use std::alloc::{AllocError, Global};

/// A label at the front of a line, the number of the line, counted from 1, and the place of its token there.
#[derive(Clone, Copy)]
pub struct Definition<'a> {
    pub name: &'a [u8],
    pub line: u32,
    pub place: usize,
}

// Adds the labels at the front of a line of these words.
fn push_names<'a>(
    definitions: &mut Vec<Definition<'a>>,
    words: &[Word<'a>],
    number: u32,
) -> Result<(), AllocError> {
    let mut rest = words;
    while begins_label(rest) {
        definitions.push(Definition {
            name: first_name(rest),
            line: number,
            place: words.len().saturating_sub(rest.len()),
        })?;
        rest = &rest[2..];
    }
    Ok(())
}

// Adds the labels at the front of a line.
fn push_front<'a>(
    alloc: Global,
    definitions: &mut Vec<Definition<'a>>,
    line: &'a [u8],
    number: u32,
) -> Result<(), AllocError> {
    let words = line_words(alloc, line)?;
    push_names(definitions, &words, number)
}

/// The labels at the fronts of these lines, in order.
pub fn definitions_of<'a>(
    alloc: Global,
    lines: &[&'a [u8]],
) -> Result<Vec<Definition<'a>>, AllocError> {
    let mut definitions = Vec::new(alloc);
    let mut number = 0u32;
    for line in lines {
        number = number.saturating_add(1);
        push_front(alloc, &mut definitions, line, number)?;
    }
    Ok(definitions)
}

/// The line that defines a label first.
pub fn first_definition(definitions: &[Definition], name: &[u8]) -> Option<u32>
    ensures { result ≡ option_map (λ d. d.line) (find (λ d. bytes_eq d.name.now name.now) definitions.now) }
{
    for definition in definitions {
        if definition.name == name {
            return Some(definition.line);
        }
    }
    None
}

/// The first label that is this name but for the case of its letters.
pub fn other_case<'a>(definitions: &[Definition<'a>], name: &[u8]) -> Option<Definition<'a>> {
    for definition in definitions {
        if definition.name.eq_ignore_ascii_case(name) {
            return Some(*definition);
        }
    }
    None
}

/// The names of the labels, as texts.
pub fn names_of<'a>(
    alloc: Global,
    definitions: &[Definition<'a>],
) -> Result<Vec<&'a str>, AllocError> {
    let mut names = Vec::new(alloc);
    for definition in definitions {
        names.push(text_of(definition.name))?;
    }
    Ok(names)
}
