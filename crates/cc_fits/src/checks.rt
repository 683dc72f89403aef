//! Translations that do not fit are refused.
ghost use Rattle.std.specs.Prelude.{◌≡◌, true, false, IfErr, OnOk, OnErr};
ghost use Rattle.std.specs.List.{list_all};
ghost use Rattle.cc_emit.specs.Errors.{IsTooMany};
ghost use Rattle.cc_fits.specs.Fits;

use crate::data::{added_fits, object_fits};
use crate::lines::line_fits;
use crate::names::symbol_fits;
use cc_emit::{Line, Output, Target, Transfer, TranslateError};
use cc_program::{Object, Program, Symbols};

/// Whether all these lines fit.
fn lines_fit(program: &Program, lines: &[Line]) -> bool
    ensures { result ≡ list_all (Fits.line_fits program.now) lines.now }
{
    lines.iter().all(|line| line_fits(program, line))
}

/// Whether all these data fit.
fn objects_fit(symbols: &Symbols, objects: &[Object]) -> bool
    ensures { result ≡ list_all (Fits.object_fits symbols.now.list.items) objects.now }
{
    objects.iter().all(|object| object_fits(symbols, object))
}

/// The number of the symbol whose name a line has in it, if it has one.
fn symbol_of(line: &Line) -> Option<u32> {
    match *line {
        Line::Mark(Target::Symbol(number))
        | Line::Transfer(
            Transfer::Branch {
                to: Target::Symbol(number),
                ..
            }
            | Transfer::Jump(Target::Symbol(number))
            | Transfer::Call {
                to: Target::Symbol(number),
                ..
            },
        ) => Some(number),
        _ => None,
    }
}

/// The name of the symbol with this number, as the assembly has it.
fn name_of<'a>(symbols: &Symbols<'a>, number: u32) -> &'a [u8] {
    match symbols.at(symbols.resolved(number)) {
        Some(symbol) => symbol.name,
        None => &[],
    }
}

/// Why a line with this number does not fit.
fn line_error<'a>(program: &Program<'a>, line: &Line, number: usize) -> TranslateError<'a>
    ensures { IsTooMany result }
{
    match symbol_of(line) {
        Some(symbol) if !symbol_fits(&program.symbols, symbol) => {
            TranslateError::Name(name_of(&program.symbols, symbol))
        }
        _ => TranslateError::Line(number),
    }
}

/// Why the first of these lines that does not fit does not.
fn lines_error<'a>(program: &Program<'a>, lines: &[Line]) -> TranslateError<'a>
    ensures { IsTooMany result }
{
    let mut number = 0usize;
    for line in lines {
        number = number.saturating_add(1);
        if !line_fits(program, line) {
            return line_error(program, line, number);
        }
    }
    TranslateError::Line(number)
}

/// Refuses lines that do not fit.
pub fn check_lines<'a>(program: &Program<'a>, lines: &[Line]) -> Result<(), TranslateError<'a>>
    ensures refused { IfErr result (λ e. IsTooMany e) }
    ensures fit { OnOk result (list_all (Fits.line_fits program.now) lines.now ≡ true) }
    ensures unfit { OnErr result (list_all (Fits.line_fits program.now) lines.now ≡ false) }
{
    if lines_fit(program, lines) {
        return Ok(());
    }
    Err(lines_error(program, lines))
}

/// The symbol of a datum whose name does not fit, or of one whose place the datum holds, if there is one.
fn symbol_in(symbols: &Symbols, object: &Object) -> u32 {
    for one in object.content.references.iter() {
        if !symbol_fits(symbols, one.symbol) {
            return one.symbol;
        }
    }
    object.symbol
}

/// Why the first of these data that does not fit does not.
fn objects_error<'a>(symbols: &Symbols<'a>, objects: &[Object]) -> TranslateError<'a>
    ensures { IsTooMany result }
{
    for object in objects {
        if !object_fits(symbols, object) {
            return TranslateError::Name(name_of(symbols, symbol_in(symbols, object)));
        }
    }
    TranslateError::Name(&[])
}

/// Refuses data that do not fit.
pub fn check_data<'a>(program: &Program<'a>, out: &Output) -> Result<(), TranslateError<'a>>
    ensures refused { IfErr result (λ e. IsTooMany e) }
    ensures fit { OnOk result (Fits.data_fits program.now out.now ≡ true) }
    ensures unfit { OnErr result (Fits.data_fits program.now out.now ≡ false) }
{
    let symbols = &program.symbols;
    if objects_fit(symbols, &program.objects) && added_fits(out) {
        return Ok(());
    }
    Err(objects_error(symbols, &program.objects))
}
