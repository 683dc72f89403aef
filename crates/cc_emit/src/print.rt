//! The text of lines.
ghost use Rattle.std.specs.Prelude.{◌≡◌, ◌++◌, ◌==◌, not, OnOk};
ghost use Rattle.std.specs.List.{filter};
ghost use Rattle.cc_emit.specs.declared.line.Plain.TheVariants.{Sh};
ghost use Rattle.cc_emit.specs.Lines.{plain_text, transfer_text, constant_text, file_name, told_text, line_text, lines_text};

use crate::line::{Line, Plain, Transfer, Word, is_short};
use crate::operand::Operand;
use crate::text::{Text, computed_name, condition_name};
use cc_program::{Program, Symbols};
use cc_rules::file_key;
use std::alloc::{AllocError, Global};

/// The longest name of a source file that is written.
pub const LONGEST_FILE: usize = 160;

/// Adds an instruction.
fn put_plain(text: &mut Text, symbols: &Symbols, plain: &Plain) -> Result<(), AllocError>
    ensures { OnOk result (text.new ≡ text.old ++ plain_text symbols.now.list.items plain.now) }
{
    match *plain {
        Plain::Compute { op, a, b, rd } => text.three(
            symbols,
            computed_name(op),
            &Operand::Register(a),
            Operand::Register(b),
            rd,
        ),
        Plain::Move { rs, rd } => text.two(symbols, "mov", &Operand::Register(rs), rd),
        Plain::Not { rs, rd } => text.two(symbols, "not", &Operand::Register(rs), rd),
        Plain::Addi { rs, number, rd } => text.three(
            symbols,
            "addi",
            &Operand::Register(rs),
            Operand::Immediate(number),
            rd,
        ),
        Plain::Asr { rs, count, rd } => {
            text.three(
                symbols,
                "asr",
                &Operand::Register(rs),
                Operand::Count(count),
                rd,
            )
        }
        Plain::Sh { a, b, count, rd } => put_shift(text, symbols, a, b, count, rd),
        Plain::Load { words, base, rd } => {
            text.two(symbols, "ld", &Operand::Memory { words, base }, rd)
        }
        Plain::Store { words, base, rs } => {
            text.two(symbols, "st", &Operand::Memory { words, base }, rs)
        }
    }
}

/// Adds an instruction that takes its result from two registers in a row.
fn put_shift(
    text: &mut Text,
    symbols: &Symbols,
    a: u8,
    b: u8,
    count: u8,
    rd: u8,
) -> Result<(), AllocError>
    ensures { OnOk result (text.new ≡ text.old ++ plain_text symbols.now.list.items (Sh a b count rd)) }
{
    text.statement(
        symbols,
        "sh",
        &Operand::Register(a),
        &[
            Operand::Register(b),
            Operand::Count(count),
            Operand::Register(rd),
        ],
    )
}

/// Adds the load of a number.
fn put_constant(text: &mut Text, symbols: &Symbols, value: u32, rd: u8) -> Result<(), AllocError>
    ensures { OnOk result (text.new ≡ text.old ++ constant_text symbols.now.list.items value rd) }
{
    let number = value.cast_signed();
    if is_short(number) {
        let number = Operand::Immediate(number);
        return text.three(symbols, "addi", &Operand::Register(0), number, rd);
    }
    let word = Word::Number(value);
    text.two(symbols, "ld", &Operand::Held { word, base: 0 }, rd)
}

/// Adds a branch, a jump, a call or the end.
fn put_transfer(text: &mut Text, symbols: &Symbols, transfer: &Transfer) -> Result<(), AllocError>
    ensures { OnOk result (text.new ≡ text.old ++ transfer_text symbols.now.list.items transfer.now) }
{
    match *transfer {
        Transfer::Branch {
            condition,
            a,
            b,
            to,
        } => text.statement(
            symbols,
            condition_name(condition),
            &Operand::Register(a),
            &[Operand::Register(b), Operand::Place(to)],
        ),
        Transfer::Jump(to) => text.statement(symbols, "b", &Operand::Place(to), &[]),
        Transfer::Call { to, link } => text.two(symbols, "call", &Operand::Place(to), link),
        Transfer::CallReg { rs, link } => {
            text.two(symbols, "callr", &Operand::Register(rs), link)
        }
        Transfer::JumpReg(rs) => text.statement(symbols, "jr", &Operand::Register(rs), &[]),
        Transfer::Halt => text.put(b"        halt\n"),
    }
}

/// The name of the source file with a number in a text, in quotes.
pub fn file_named<'a>(program: &Program<'a>, unit: u32, file: u32) -> Option<&'a [u8]>
    ensures { result ≡ file_name program.now unit file }
{
    program.files.get(&file_key(unit, file)).copied()
}

/// Adds the name of a source file, which is in quotes, without these.
fn put_unquoted(text: &mut Text, quoted: &[u8]) -> Result<(), AllocError>
    ensures { OnOk result (text.new ≡ text.old ++ filter (λ b. not (b == 34)) quoted.now) }
{
    for byte in quoted {
        if *byte != b'"' {
            text.put(&[*byte])?;
        }
    }
    Ok(())
}

/// Adds a comment with the name of a source file and a line.
fn put_told(text: &mut Text, name: Option<&[u8]>, line: u32) -> Result<(), AllocError>
    ensures { OnOk result (text.new ≡ text.old ++ told_text name.entry line) }
{
    match name {
        Some(name) if name.len() <= LONGEST_FILE => {
            text.put(b"; ")?;
            put_unquoted(text, name)?;
            text.put(b":")?;
            text.number(line)?;
            text.put(b"\n")
        }
        _ => Ok(()),
    }
}

/// Adds a line.
fn put_line(text: &mut Text, program: &Program, line: &Line) -> Result<(), AllocError>
    ensures { OnOk result (text.new ≡ text.old ++ line_text program.now line.now) }
{
    let symbols = &program.symbols;
    match *line {
        Line::Plain(plain) => put_plain(text, symbols, &plain),
        Line::Constant { value, rd } => put_constant(text, symbols, value, rd),
        Line::Take { word, base, rd } => {
            text.two(symbols, "ld", &Operand::Held { word, base }, rd)
        }
        Line::Transfer(transfer) => put_transfer(text, symbols, &transfer),
        Line::Mark(target) => {
            text.target(symbols, target)?;
            text.put(b":\n")
        }
        Line::Told { unit, file, line } => put_told(text, file_named(program, unit, file), line),
        Line::Written(written) => {
            text.put(written.as_bytes())?;
            text.put(b"\n")
        }
    }
}

/// Adds lines.
pub(crate) fn put_lines(
    text: &mut Text,
    program: &Program,
    lines: &[Line],
) -> Result<(), AllocError>
    ensures { OnOk result (text.new ≡ text.old ++ lines_text program.now lines.now) }
{
    for line in lines {
        put_line(text, program, line)?;
    }
    Ok(())
}
