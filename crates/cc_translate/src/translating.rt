//! The translation of texts.
ghost use Rattle.std.specs.Prelude.{◌≤◌, IfErr, IfOk, OnOk};
ghost use Rattle.cc_emit.specs.Errors.{IsTooMany};
ghost use Rattle.cc_fits.specs.Translations.{HasLines, IsPrinted, IsTranslation};

use crate::functions::translate_function;
use cc_emit::{
    Line, MOST_STATEMENTS, Output, Plain, Target, Transfer, TranslateError, Word, end_of,
    limit_statements, limit_words, put_routines, source_text,
};
use cc_fits::{check_data, check_lines};
use cc_lines::Register;
use cc_plan::STACK_WORDS;
use cc_program::{Fault, Program};
use cc_reader::Reader;
use cc_rules::FIRST_BYTE;
use std::alloc::{AllocError, Global};

/// Adds the beginning, which calls `main` with a stack.
fn put_start(out: &mut Output, main: u32) -> Result<(), AllocError> {
    out.push_all(&[
        Line::Take {
            word: Word::Stack,
            base: 0,
            rd: Register::STACK.0,
        },
        Line::Plain(Plain::Asr {
            rs: Register::STACK.0,
            count: 2,
            rd: STACK_WORDS,
        }),
        Line::Transfer(Transfer::Call {
            to: Target::Symbol(main),
            link: Register::LINK.0,
        }),
        Line::Transfer(Transfer::Halt),
    ])
}

/// Adds the functions that are kept.
fn put_functions(
    alloc: Global,
    out: &mut Output,
    program: &Program,
    main: u32,
) -> Result<(), AllocError> {
    put_start(out, main)?;
    for function in &program.functions {
        if function.kept {
            translate_function(alloc, out, program, function)?;
            if out.statements > MOST_STATEMENTS && out.crossing.is_none() {
                out.crossing = Some(function.symbol);
            }
        }
    }
    Ok(())
}

/// Adds the routines that are called to lines, unless one of these does not fit.
fn put_rest<'a>(out: &mut Output, program: &Program<'a>) -> Result<(), TranslateError<'a>>
    ensures refused { IfErr result (λ e. IsTooMany e) }
    ensures lines { OnOk result (HasLines program.now out.new) }
{
    check_lines(program, &out.lines)?;
    put_routines(out)?;
    Ok(())
}

/// The text of the source, whose data end before these bytes, if they fit.
fn checked_text<'a>(
    alloc: Global,
    out: &Output,
    program: &Program<'a>,
    behind: u32,
    end: u32,
) -> Result<Vec<u8>, TranslateError<'a>>
    ensures refused { IfErr result (λ e. IsTooMany e) }
    ensures source { IfOk result (λ text. IsPrinted program.now out.now behind text.items) }
{
    check_data(program, out)?;
    let text = source_text(alloc, program, out, behind, end)?;
    Ok(text)
}

/// The text of the source, unless there are more data than the memory has room for, or some do not fit.
fn text_of<'a>(
    alloc: Global,
    out: &Output,
    program: &Program<'a>,
    behind: u64,
) -> Result<Vec<u8>, TranslateError<'a>>
    ensures refused { IfErr result (λ e. IsTooMany e) }
    ensures source { IfOk result (λ text. IsPrinted program.now out.now behind text.items) }
{
    let end = end_of(out, behind);
    let words = end.saturating_sub(FIRST_BYTE) / 4;
    limit_words(words)?;
    checked_text(alloc, out, program, behind as u32, end as u32)
}

/// The name of the function with which there were too many statements.
fn crossing_name<'a>(out: &Output, program: &Program<'a>) -> Option<&'a [u8]> {
    Some(program.symbols.at(out.crossing?)?.name)
}

/// Adds code, unless a statement is not translated, a line does not fit, or there are too many.
fn put_all<'a>(
    alloc: Global,
    out: &mut Output,
    program: &Program<'a>,
    main: u32,
) -> Result<(), TranslateError<'a>>
    ensures refused { IfErr result (λ e. IsTooMany e) }
    ensures few { OnOk result (out.new.statements ≤ MOST_STATEMENTS) }
    ensures lines { OnOk result (HasLines program.now out.new) }
{
    put_functions(alloc, out, program, main)?;
    if let Some((unit, line, refusal)) = out.fault {
        return Err(TranslateError::Fault(Fault {
            unit,
            line,
            statement: 0,
            refusal,
            symbol: None,
        }));
    }
    put_rest(out, program)?;
    limit_statements(out.statements, crossing_name(out, program))
}

/// What a program becomes.
pub fn lines_of<'a>(
    alloc: Global,
    program: &Program<'a>,
    main: u32,
) -> Result<Output, TranslateError<'a>>
    ensures refused { IfErr result (λ e. IsTooMany e) }
    ensures few { IfOk result (λ out. out.statements ≤ MOST_STATEMENTS) }
    ensures lines { IfOk result (λ out. HasLines program.now out) }
{
    let mut out = Output::new(alloc);
    put_all(alloc, &mut out, program, main)?;
    Ok(out)
}

/// The source of a program.
fn source_of<'a>(
    alloc: Global,
    program: &Program<'a>,
    main: u32,
    behind: u64,
) -> Result<Vec<u8>, TranslateError<'a>>
    ensures refused { IfErr result (λ e. IsTooMany e) }
    ensures source { IfOk result (λ text. IsTranslation text.items) }
{
    let out = lines_of(alloc, program, main)?;
    let text = text_of(alloc, &out, program, behind)?;
    Ok(text)
}

/// The source that texts become together, which are read into an empty program.
fn source_from<'a>(
    alloc: Global,
    reader: &mut Reader<'a>,
    texts: &[&'a [u8]],
) -> Result<Vec<u8>, TranslateError<'a>>
    ensures refused { IfErr result (λ e. IsTooMany e) }
    ensures source { IfOk result (λ text. IsTranslation text.items) }
{
    let (main, behind) = reader.read_all(texts)?;
    source_of(alloc, &reader.program, main, behind)
}

/// The source that texts in a compiler's assembly for MIPS-I become together.
pub fn translate<'a>(alloc: Global, texts: &[&'a [u8]]) -> Result<Vec<u8>, TranslateError<'a>>
    ensures refused { IfErr result (λ e. IsTooMany e) }
    ensures source { IfOk result (λ text. IsTranslation text.items) }
{
    let mut reader = Reader::new(alloc)?;
    source_from(alloc, &mut reader, texts)
}
