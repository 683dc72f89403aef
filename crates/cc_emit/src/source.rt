//! The text of a source.
ghost use Rattle.std.specs.Prelude.{◌≡◌, ◌++◌, ◌-◌, ◌/◌, codes, IfOk, OnOk};
ghost use Rattle.cc_emit.specs.Lines.{lines_text};
ghost use Rattle.cc_emit.specs.Sources;

use crate::line::Line;
use crate::output::Output;
use crate::print::put_lines;
use crate::text::Text;
use crate::words::put_data;
use cc_program::Program;
use cc_rules::FIRST_BYTE;
use std::alloc::{AllocError, Global};

/// Adds an `s` behind what a number counts, unless that is 1.
fn put_plural(text: &mut Text, count: u32) -> Result<(), AllocError>
    ensures { OnOk result (text.new ≡ text.old ++ Sources.plural count) }
{
    if count == 1 {
        return Ok(());
    }
    text.put(b"s")
}

/// Adds a number and what it counts, after a text, as `, 1 statement` or `, 2 statements`.
fn put_count(text: &mut Text, before: &str, count: u32, what: &str) -> Result<(), AllocError>
    ensures { OnOk result (text.new ≡ text.old ++ Sources.count_text before.now count what.now) }
{
    text.put(before.as_bytes())?;
    text.number(count)?;
    text.put(what.as_bytes())?;
    put_plural(text, count)
}

/// Adds a comment with the size of the source.
fn put_size(
    text: &mut Text,
    statements: u32,
    instructions: u32,
    words: u32,
) -> Result<(), AllocError>
    ensures { OnOk result (text.new ≡ text.old ++ Sources.size_text statements instructions words) }
{
    put_count(text, "; ", statements, " statement")?;
    put_count(text, ", ", instructions, " instruction")?;
    put_count(text, ", ", words, " data word")?;
    text.put(b"\n")
}

/// Adds a comment and the code.
fn put_code(text: &mut Text, program: &Program, lines: &[Line]) -> Result<(), AllocError>
    ensures { OnOk result (text.new ≡ text.old ++ Sources.code_text program.now lines.now) }
{
    text.put(b"; translated from assembly for MIPS-I\n")?;
    put_lines(text, program, lines)
}

/// How many words of data there are before a byte.
fn words_before(end: u32) -> u32
    ensures { result ≡ (end - FIRST_BYTE) / 4 }
{
    let words = u64::from(end).saturating_sub(FIRST_BYTE) / 4;
    words as u32
}

/// The text of a source, whose data begin at the first byte of data, those of the program end before the byte `behind`, and all before
/// `end`: its code, its data, and its size in a comment.
pub fn source_text(
    alloc: Global,
    program: &Program,
    out: &Output,
    behind: u32,
    end: u32,
) -> Result<Vec<u8>, AllocError>
    ensures { IfOk result (λ text. text.items ≡ Sources.source_text program.now out.now behind end) }
{
    let mut text = Text::new(alloc);
    put_code(&mut text, program, &out.lines)?;
    put_data(alloc, &mut text, program, out, behind, end)?;
    put_size(
        &mut text,
        out.statements,
        out.instructions,
        words_before(end),
    )?;
    Ok(text.into_bytes())
}
