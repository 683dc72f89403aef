//! The lines of C that a source was made from, by its comment lines `; FILE:LINE`.
ghost use Rattle.std.specs.Prelude.{◌≡◌, [], option_map, slice_get};
ghost use Rattle.lab_positions.specs.Positions.{name_in, position_of};

use crate::spans::{Span, line_spans};
use indexmap::IndexMap;
use std::alloc::{AllocError, Global};

/// How many bytes stand before the name of a line of C in a comment line.
const MARK: usize = 2;

/// A line of C.
#[derive(Clone, Copy)]
pub struct Position {
    /// The number of its file.
    pub file: u32,
    pub line: u32,
    /// The name of the file and the line, as they stand in the source.
    pub name: Span,
}

/// The lines of C that the lines of a source were made from.
#[derive(Drop)]
pub struct Positions {
    /// Where the text has the name of each file.
    pub files: Vec<Span>,
    /// For each line of the source, the first at 0, the line of C.
    pub lines: Vec<Option<Position>>,
}

impl Positions {
    /// None of any line.
    pub fn new(alloc: Global) -> Positions
        ensures { (result.files.items ≡ []) × (result.lines.items ≡ []) }
    {
        Positions {
            files: Vec::new(alloc),
            lines: Vec::new(alloc),
        }
    }

    /// The line of C of a line of the source, where it is known.
    pub fn at(&self, line: u32) -> Option<Position>
        ensures { result ≡ position_of self.now.lines.items line }
    {
        let number = line.checked_sub(1)?;
        self.lines.get(number as usize).copied().flatten()
    }

    /// The name of a file in the text of the source.
    pub fn file_name<'a>(&self, text: &'a [u8], file: u32) -> &'a [u8] {
        match self.files.get(file as usize) {
            Some(name) => name.bytes(text),
            None => b"",
        }
    }
}

/// What a comment line tells: a file, a line of it, and both as they stand there.
#[derive(Clone, Copy)]
struct Told {
    file: Span,
    line: u32,
    name: Span,
}

// The number that these digits spell; none where they are no digits or it is too large.
fn number_of(digits: &[u8]) -> Option<u32> {
    str::from_utf8(digits).ok()?.parse::<u32>().ok()
}

// What stands behind the mark of a comment line.
fn name_in(line: &[u8]) -> Option<&[u8]>
    ensures { option_map (λ name. name.now) result ≡ name_in line.now }
{
    match line {
        [b';', b' ', name @ ..] => Some(name),
        _ => None,
    }
}

// The line that a name tells, and how long the name of its file is.
fn line_in(name: &[u8]) -> Option<(usize, u32)> {
    let colon = name.iter().rposition(|byte| *byte == b':')?;
    let line = number_of(name.get(colon.saturating_add(1)..)?)?;
    if colon == 0 {
        None
    } else {
        Some((colon, line))
    }
}

// The line of C that a comment line tells, which stands there in the text.
fn told_in(text: &[u8], comment: Span) -> Option<Told> {
    let name = name_in(comment.bytes(text))?;
    let (length, line) = line_in(name)?;
    let start = comment.start.saturating_add(MARK);
    Some(Told {
        file: Span {
            start,
            end: start.saturating_add(length),
        },
        line,
        name: Span {
            start,
            end: start.saturating_add(name.len()),
        },
    })
}

/// The files that were told of, and the number of each by its name.
#[derive(Drop)]
struct NumberedNames<'a> {
    names: Vec<Span>,
    numbers: IndexMap<&'a [u8], u32>,
}

impl<'a> NumberedNames<'a> {
    // The number of a file, which is added where it is new.
    fn number(&mut self, text: &'a [u8], file: Span) -> Result<u32, AllocError> {
        let name = file.bytes(text);
        if let Some(number) = self.numbers.get(name) {
            return Ok(*number);
        }
        let number = u32::try_from(self.names.len()).unwrap_or(u32::MAX);
        self.names.push(file)?;
        self.numbers.insert(name, number)?;
        Ok(number)
    }
}

// Whether a line begins with the label of a function or a routine. The labels within a function begin with `L` or `_.`.
fn begins_function(line: &[u8]) -> bool {
    match line {
        [] | [b' ' | b'\t' | b';' | b'L' | b'.', ..] | [b'_', b'.', ..] => false,
        _ => line.contains(&b':'),
    }
}

// The line of C from a line of the source on, where this is the one before it.
fn position_from<'a>(
    files: &mut NumberedNames<'a>,
    text: &'a [u8],
    line: Span,
    before: Option<Position>,
) -> Result<Option<Position>, AllocError> {
    match told_in(text, line) {
        Some(told) => Ok(Some(Position {
            file: files.number(text, told.file)?,
            line: told.line,
            name: told.name,
        })),
        None if begins_function(line.bytes(text)) => Ok(None),
        None => Ok(before),
    }
}

/// For each line of a source the line of C that it was made from: that of the last comment line before it that tells one, within
/// its function.
pub fn positions_of(alloc: Global, text: &[u8]) -> Result<Positions, AllocError> {
    let spans = line_spans(alloc, text)?;
    let mut files = NumberedNames {
        names: Vec::new(alloc),
        numbers: IndexMap::new(alloc),
    };
    let mut lines = Vec::new(alloc);
    let mut position = None;
    for line in spans.iter() {
        position = position_from(&mut files, text, *line, position)?;
        lines.push(position)?;
    }
    let NumberedNames { names, .. } = files;
    Ok(Positions {
        files: names,
        lines,
    })
}
