//! The labels of a text.
ghost use Rattle.std.specs.Prelude.{◌≡◌, ◌+◌, ◌^◌, ◌≤◌, ◌<◌, ◌-◌, [], None, map, length, IfOk, OnOk};
ghost use Rattle.mx_asm.specs.Terms.{MAX_SOURCE_BYTES, PAST_END, lines_of, word, texts};
ghost use Rattle.mx_asm.specs.Faults.{first_repeat};
ghost use Rattle.mx_asm.specs.Faults;
ghost use Rattle.mx_asm.specs.Positions.{labels_from, position_at_end};
ghost use Rattle.mx_asm.specs.Positions;

use crate::front::{define_front, statement_words};
use crate::position::Position;
use mx_lines::{Labels, LineError, Word, split_line, split_words};
use std::alloc::{AllocError, Global};

/// The labels of a text, and the first line that defines one again.
#[derive(Drop)]
pub struct Definitions {
    pub labels: Labels,
    pub repeated: Option<u32>,
    /// Where the lines end.
    pub last: Position,
}

impl Definitions {
    ghost use Rattle.mx_asm.specs.Defined.{Defines};

    /// Those of no lines, which begin at a position.
    fn new(alloc: Global, from: Position) -> Definitions
        ensures labels { result.labels ≡ [] }
        ensures repeated { result.repeated ≡ None }
        ensures last { result.last ≡ from }
    {
        Definitions {
            labels: Labels::new(alloc),
            repeated: None,
            last: from,
        }
    }

    /// Adds those of a line with these words.
    fn add(&mut self, number: u32, words: &[Word]) -> Result<(), AllocError>
        requires room { self.old.last.index < 2 ^ 32 - 1 }
        requires near { self.old.last.address ≤ PAST_END }
        ensures { OnOk result (Defines self.old self.new number (map word words.now)) }
    {
        let again = define_front(&mut self.labels, self.last.label(), words)?;
        self.repeated = first_line(self.repeated, again, number);
        self.last = self.last.after(statement_words(words));
        Ok(())
    }

    /// Adds those of a line, whose words take the place of those before.
    fn add_line<'a>(
        &mut self,
        words: &mut Vec<Word<'a>>,
        number: u32,
        line: &'a [u8],
    ) -> Result<(), AllocError>
        requires room { self.old.last.index < 2 ^ 32 - 1 }
        requires near { self.old.last.address ≤ PAST_END }
        ensures { OnOk result (Defines self.old self.new number (Positions.line_words line.entry.now)) }
    {
        words_or_none(words, line)?;
        self.add(number, words)
    }
}

/// The definitions of all lines from a position on, whatever is wrong with them.
pub fn define_all(alloc: Global, lines: &[&[u8]], from: Position) -> Result<Definitions, AllocError>
    requires few { length lines.now ≤ MAX_SOURCE_BYTES }
    requires room { from.index + length lines.now < 2 ^ 32 }
    requires near { from.address ≤ PAST_END }
    ensures labels { IfOk result (λ d. d.labels ≡ labels_from from [] (texts lines.now)) }
    ensures repeated { IfOk result (λ d. d.repeated ≡ first_repeat from [] 1 (texts lines.now)) }
    ensures last { IfOk result (λ d. d.last ≡ position_at_end from (texts lines.now)) }
    ensures index { IfOk result (λ d. d.last.index ≤ from.index + length lines.now) }
    ensures address { IfOk result (λ d. d.last.address ≤ PAST_END) }
{
    let mut found = Definitions::new(alloc, from);
    let mut number = 1u32;
    let mut words = Vec::new(alloc);
    for line in lines {
        found.add_line(&mut words, number, line)?;
        number += 1;
    }
    Ok(found)
}

/// The definitions of a text that begins at a position, whatever is wrong with it.
pub(crate) fn define_text(
    alloc: Global,
    text: &[u8],
    from: Position,
) -> Result<Definitions, AllocError>
    requires short { length text.now ≤ MAX_SOURCE_BYTES }
    requires room { from.index + length text.now < 2 ^ 32 }
    requires near { from.address ≤ PAST_END }
    ensures labels { IfOk result (λ d. d.labels ≡ labels_from from [] (lines_of text.now)) }
    ensures repeated { IfOk result (λ d. d.repeated ≡ first_repeat from [] 1 (lines_of text.now)) }
{
    let mut found = Definitions::new(alloc, from);
    let mut number = 1u32;
    let mut words = Vec::new(alloc);
    let mut rest = text;
    while !rest.is_empty() {
        let (line, behind) = split_line(rest);
        found.add_line(&mut words, number, line)?;
        number += 1;
        rest = behind;
    }
    Ok(found)
}

/// The words of a line, none where it does not split into tokens.
pub fn line_words(alloc: Global, line: &[u8]) -> Result<Vec<Word<'_>>, AllocError>
    ensures { IfOk result (λ v. map word v.items ≡ Positions.line_words line.now) }
{
    let mut words = Vec::new(alloc);
    words_or_none(&mut words, line)?;
    Ok(words)
}

/// The words of a line in the place of those before, none where it does not split into tokens.
fn words_or_none<'a>(words: &mut Vec<Word<'a>>, line: &'a [u8]) -> Result<(), AllocError>
    ensures { OnOk result (map word words.new.items ≡ Positions.line_words line.entry.now) }
{
    match split_words(words, line) {
        Ok(()) => Ok(()),
        Err(LineError::Fault(_)) => {
            words.clear();
            Ok(())
        }
        Err(LineError::Memory) => Err(AllocError),
    }
}

/// The line that was found, or else this one where it defines a label again.
fn first_line(found: Option<u32>, again: bool, number: u32) -> Option<u32>
    ensures { result ≡ Faults.earlier_line found again number }
{
    match found {
        Some(line) => Some(line),
        None => again.then_some(number),
    }
}
