//! The lines of a module, as the assembler reads them, and its imports and exports.
ghost use Rattle.std.specs.Prelude.{◌≡◌, ◌≤◌, ◌++◌, length, map, replicate, IfOk, OnOk};
ghost use Rattle.mx_io.specs.declared.limits.TheConstants.{MAX_SOURCE_BYTES};
ghost use Rattle.mx_asm.specs.Positions.{line_words};
ghost use Rattle.mx_lines.specs.Shapes.{word};
ghost use Rattle.mx_lines.specs.Words.{texts};
ghost use Rattle.mx_lex.specs.Lines.{lines_of};
ghost use Rattle.mx_module.specs.Links;
ghost use Rattle.mx_module.specs.Links.{link_lines_from, link_here};
ghost use Rattle.mx_module.specs.ModuleView.{link_value};
ghost use Rattle.mx_module.specs.Modules.{plain_lines};

use crate::link::{Link, is_bare_link, kind_of, linked};
use mx_asm::{line_words, statement_words};
use mx_lines::{Word, lines_of};
use std::alloc::{AllocError, Global};

/// The lines of a module with its imports and exports blank, and these.
#[derive(Drop)]
pub struct Parts<'a> {
    pub lines: Vec<&'a [u8]>,
    pub links: Vec<Link<'a>>,
}

/// The line as the assembler reads it.
fn plain_line<'a>(line: &'a [u8], words: &[Word], blanks: &'a [u8]) -> &'a [u8]
    requires words { map word words.now ≡ line_words line.now }
    requires blank { blanks.now ≡ replicate 256 32 }
    ensures { result.now ≡ Links.plain_line line.entry.now }
{
    if is_bare_link(words) {
        &blanks[..line.len().min(256)]
    } else {
        line
    }
}

impl<'a> Parts<'a> {
    ghost use Rattle.std.specs.Prelude.{◌≡◌, ◌++◌, ◌∷◌, [], map, replicate, OnOk};
    ghost use Rattle.mx_asm.specs.Positions.{line_words};
    ghost use Rattle.mx_lines.specs.Words.{texts};
    ghost use Rattle.mx_module.specs.Links;
    ghost use Rattle.mx_module.specs.Links.{link_here};
    ghost use Rattle.mx_module.specs.ModuleView.{link_value};

    /// Adds a line.
    fn add(
        &mut self,
        alloc: Global,
        number: u32,
        line: &'a [u8],
        blanks: &'a [u8],
    ) -> Result<(), AllocError>
        requires { blanks.now ≡ replicate 256 32 }
        ensures lines { OnOk result (texts self.new.lines.items ≡ texts self.old.lines.items ++ Links.plain_line line.entry.now ∷ []) }
        ensures links { OnOk result (map link_value self.new.links.items
            ≡ map link_value self.old.links.items ++ link_here number (line_words line.entry.now)) }
    {
        let words = line_words(alloc, line)?;
        self.lines.push(plain_line(line, &words, blanks))?;
        add_link(&mut self.links, number, &words)
    }
}

/// The parts of a module with these lines; `blanks` are 256 blanks.
fn parts_of<'a>(
    alloc: Global,
    lines: &[&'a [u8]],
    blanks: &'a [u8],
) -> Result<Parts<'a>, AllocError>
    requires few { length lines.now ≤ MAX_SOURCE_BYTES }
    requires blank { blanks.now ≡ replicate 256 32 }
    ensures lines { IfOk result (λ p. texts p.lines.items ≡ map Links.plain_line (texts lines.now)) }
    ensures links { IfOk result (λ p. map link_value p.links.items ≡ link_lines_from 1 (texts lines.now)) }
{
    let mut parts = Parts {
        lines: Vec::new(alloc),
        links: Vec::new(alloc),
    };
    let mut number = 1u32;
    for line in lines {
        parts.add(alloc, number, line, blanks)?;
        number += 1;
    }
    Ok(parts)
}

/// The parts of the module of a text; `blanks` are 256 blanks.
pub fn parts_in<'a>(
    alloc: Global,
    text: &'a [u8],
    blanks: &'a [u8],
) -> Result<Parts<'a>, AllocError>
    requires short { length text.now ≤ MAX_SOURCE_BYTES }
    requires blank { blanks.now ≡ replicate 256 32 }
    ensures lines { IfOk result (λ p. texts p.lines.items ≡ plain_lines text.now) }
    ensures links { IfOk result (λ p. map link_value p.links.items ≡ link_lines_from 1 (lines_of text.now)) }
    ensures few { IfOk result (λ p. length p.lines.items ≤ length text.now) }
{
    let lines = lines_of(alloc, text)?;
    parts_of(alloc, &lines, blanks)
}

/// Adds what a line imports or exports.
fn add_link<'a>(
    links: &mut Vec<Link<'a>>,
    number: u32,
    words: &[Word<'a>],
) -> Result<(), AllocError>
    ensures { OnOk result (map link_value links.new.items ≡ map link_value links.old.items ++ link_here number (map word words.now)) }
{
    if let Some(kind) = kind_of(statement_words(words)) {
        links.push(linked(number, kind, words))?;
    }
    Ok(())
}
