//! Lines of the code that the source language takes.
ghost use Rattle.std.specs.Prelude.{◌≡◌};
ghost use Rattle.cc_fits.specs.Fits;

use crate::names::{file_fits, symbol_fits};
use crate::numbers::{is_byte, is_count, is_register, is_word};
use cc_emit::{Line, Plain, Target, Transfer, Word, file_named, is_short};
use cc_program::{Program, Symbols};

/// Whether an instruction has fields for its registers and numbers.
fn plain_fits(plain: Plain) -> bool
    ensures { result ≡ Fits.plain_fits plain }
{
    match plain {
        Plain::Compute { a, b, rd, .. } => is_register(a) && is_register(b) && is_register(rd),
        Plain::Move { rs, rd } | Plain::Not { rs, rd } => is_register(rs) && is_register(rd),
        Plain::Addi { rs, number, rd } => is_register(rs) && is_short(number) && is_register(rd),
        Plain::Asr { rs, count, rd } => is_register(rs) && is_count(count) && is_register(rd),
        Plain::Sh { a, b, count, rd } => {
            is_register(a) && is_register(b) && is_count(count) && is_register(rd)
        }
        Plain::Load { words, base, rd } => is_short(words) && is_register(base) && is_register(rd),
        Plain::Store { words, base, rs } => is_short(words) && is_register(base) && is_register(rs),
    }
}

/// Whether the number in the label of a word has 32 bits.
fn word_fits(word: Word) -> bool
    ensures { result ≡ Fits.word_fits word }
{
    match word {
        Word::Number(number) | Word::End(number) => is_word(number),
        _ => true,
    }
}

/// Whether the source has a name for a place of the code.
fn target_fits(symbols: &Symbols, target: Target) -> bool
    ensures { result ≡ Fits.target_fits symbols.now.list.items target }
{
    match target {
        Target::Symbol(number) => symbol_fits(symbols, number),
        Target::Routine(_) => true,
        Target::Shifted { count, .. } => is_byte(count),
        Target::Skip(number) => is_word(number),
    }
}

/// Whether a branch, a jump or a call has registers of the machine and goes to a place that has a name.
fn transfer_fits(symbols: &Symbols, transfer: Transfer) -> bool
    ensures { result ≡ Fits.transfer_fits symbols.now.list.items transfer }
{
    match transfer {
        Transfer::Branch { a, b, to, .. } => {
            is_register(a) && is_register(b) && target_fits(symbols, to)
        }
        Transfer::Jump(to) => target_fits(symbols, to),
        Transfer::Call { to, link } => target_fits(symbols, to) && is_register(link),
        Transfer::CallReg { rs, link } => is_register(rs) && is_register(link),
        Transfer::JumpReg(rs) => is_register(rs),
        Transfer::Halt => true,
    }
}

/// Whether a line fits. Lines of routines, which are texts already, come after those that are looked at.
pub(crate) fn line_fits(program: &Program, line: &Line) -> bool
    ensures { result ≡ Fits.line_fits program.now line.now }
{
    match *line {
        Line::Plain(plain) => plain_fits(plain),
        Line::Constant { value, rd } => is_word(value) && is_register(rd),
        Line::Take { word, base, rd } => word_fits(word) && is_register(base) && is_register(rd),
        Line::Transfer(transfer) => transfer_fits(&program.symbols, transfer),
        Line::Mark(target) => target_fits(&program.symbols, target),
        Line::Told { unit, file, line } => {
            file_fits(file_named(program, unit, file)) && is_word(line)
        }
        Line::Written(_) => false,
    }
}
