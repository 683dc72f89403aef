//! The report of a run.
ghost use Rattle.std.specs.Prelude.{◌≡◌, ◌≤◌, ◌<◌, ◌+◌, ◌-◌, ◌++◌, List, ℕ, Bool, OnOk, IfOk, codes, cond, min, ◌∷◌};
ghost use Rattle.std.specs.Fmt.{decimal};
ghost use Rattle.mx_isa.specs.declared.board.TheConstants.{DATA_END};
ghost use Rattle.mx_isa.specs.Words.{reg};
ghost use Rattle.mx_text.specs.Text.{word_text, line, named_line, count_line, register_line, lines_from, word_line, console_lines};
ghost use Rattle.mx_turn.specs.Program.{Program, state_after};
ghost use Rattle.mx_report.specs.Report.{counts_text, words_text, registers_text, dump_text, last_text, head_text, report_text};

use crate::Driven;
use mx_code::{Image, noops_in};
use mx_io::Memory;
use mx_isa::{DATA_END, Reg};
use mx_text::{
    push_console, push_count, push_line, push_named, push_register, push_word, push_word_line,
};
use mx_turn::{Counts, Machine};
use std::alloc::{AllocError, Global};

/// Data words to be printed: `count` words from `at` on, of which those up to 65535 are.
#[derive(Clone, Copy, Debug, PartialEq, Eq)]
pub struct Dump {
    pub at: u32,
    pub count: u32,
}

/// Appends the counts of a machine, a line each.
pub fn push_counts(alloc: Global, text: &mut Vec<u8>, counts: &Counts) -> Result<(), AllocError>
    ensures { OnOk result (text.new.items ≡ text.old.items ++ counts_text counts.now) }
{
    push_count(alloc, text, "cycles", counts.cycles)?;
    push_count(alloc, text, "fetches", counts.fetches)?;
    push_count(alloc, text, "misses", counts.misses)?;
    push_count(alloc, text, "squashes", counts.squashes)?;
    push_count(alloc, text, "interrupts", counts.interrupts)
}

// Appends the counts of an image's words.
fn push_words(alloc: Global, text: &mut Vec<u8>, code: &[u32]) -> Result<(), AllocError>
    ensures { OnOk result (text.new.items ≡ text.old.items ++ words_text code.now) }
{
    push_count(alloc, text, "words", code.len() as u64)?;
    push_count(alloc, text, "noops", noops_in(code) as u64)
}

// Appends the line of a register.
fn push_word_of<M: Machine>(
    alloc: Global,
    text: &mut Vec<u8>,
    machine: &M,
    n: u8,
) -> Result<(), AllocError>
    requires { n ≤ 31 }
    ensures { OnOk result
        ((p : Program) (h : List Bool) → M.stands machine.now p h
        → text.new.items ≡ text.old.items ++ register_line n (word_text (reg (state_after p h).core.regs n))) }
{
    let mut word = Vec::new(alloc);
    if let Some(register) = Reg::new(n) {
        push_word(&mut word, machine.register(register))?;
    }
    push_register(alloc, text, u64::from(n), word.as_slice())
}

// Appends the lines of registers 1 to 31.
fn push_registers<M: Machine>(
    alloc: Global,
    text: &mut Vec<u8>,
    machine: &M,
) -> Result<(), AllocError>
    ensures { OnOk result ((p : Program) (h : List Bool) → M.stands machine.now p h
        → text.new.items ≡ text.old.items ++ lines_from (λ n. register_line n (word_text (reg (state_after p h).core.regs n))) 31 1) }
{
    for n in 1..32u8 {
        push_word_of(alloc, text, machine, n)?;
    }
    Ok(())
}

// Appends the registers and MD.
fn push_file<M: Machine>(alloc: Global, text: &mut Vec<u8>, machine: &M) -> Result<(), AllocError>
    ensures { OnOk result
        ((p : Program) (h : List Bool) → M.stands machine.now p h → text.new.items ≡ text.old.items ++ registers_text (state_after p h).core) }
{
    push_line(text, "registers")?;
    push_registers(alloc, text, machine)?;
    let mut word = Vec::new(alloc);
    push_word(&mut word, machine.md())?;
    push_named(text, b"md".as_slice(), word.as_slice())
}

// Appends the lines of data words.
fn push_data_words<M: Machine>(
    text: &mut Vec<u8>,
    machine: &M,
    from: u32,
    to: u32,
) -> Result<(), AllocError>
    requires { to ≤ DATA_END }
    ensures { OnOk result ((p : Program) (h : List Bool) → M.stands machine.now p h
        → text.new.items ≡ text.old.items ++ lines_from (λ a. word_line a ((state_after p h).core.mem a)) (to - from) from) }
{
    for address in from..to {
        push_word_line(text, address, machine.user_data(address))?;
    }
    Ok(())
}

// Where the dump ends.
fn end_of(dump: &Dump) -> u32
    ensures end { result - dump.now.at ≡ min dump.now.count (DATA_END - dump.now.at) }
    ensures within { result ≤ DATA_END }
{
    let end = u64::from(dump.at) + u64::from(dump.count);
    end.min(u64::from(DATA_END)) as u32
}

// Appends the words of a dump, if one is asked for.
fn push_dump<M: Machine>(
    text: &mut Vec<u8>,
    machine: &M,
    dump: Option<Dump>,
) -> Result<(), AllocError>
    ensures { OnOk result
        ((p : Program) (h : List Bool) → M.stands machine.now p h → text.new.items ≡ text.old.items ++ dump_text (state_after p h).core.mem dump) }
{
    match dump {
        Some(dump) => {
            push_line(text, "data")?;
            push_data_words(text, machine, dump.at, end_of(&dump))
        }
        None => Ok(()),
    }
}

// Appends what a halt adds.
fn push_last<M: Machine>(
    alloc: Global,
    text: &mut Vec<u8>,
    machine: &M,
    halted: bool,
    dump: Option<Dump>,
) -> Result<(), AllocError>
    ensures { OnOk result
        ((p : Program) (h : List Bool) → M.stands machine.now p h → text.new.items ≡ text.old.items ++ last_text halted (state_after p h).core dump) }
{
    if halted {
        push_file(alloc, text, machine)?;
        push_dump(text, machine, dump)
    } else {
        Ok(())
    }
}

// Appends the first line.
fn push_ending(text: &mut Vec<u8>, halted: bool) -> Result<(), AllocError>
    ensures { OnOk result (text.new.items ≡ text.old.items ++ line (cond halted (codes "halted") (codes "out of budget"))) }
{
    if halted {
        push_line(text, "halted")
    } else {
        push_line(text, "out of budget")
    }
}

// Appends how the run ended, its counts and its console.
fn push_head(
    alloc: Global,
    text: &mut Vec<u8>,
    driven: &Driven,
    code: &[u32],
) -> Result<(), AllocError>
    ensures { OnOk result (text.new.items ≡ text.old.items ++ head_text driven.now.halted driven.now.counts driven.now.console.items code.now) }
{
    push_ending(text, driven.halted)?;
    push_counts(alloc, text, &driven.counts)?;
    push_words(alloc, text, code)?;
    push_console(alloc, text, driven.console.as_slice())
}

// Appends the report behind the trace.
fn push_report<M: Machine>(
    alloc: Global,
    text: &mut Vec<u8>,
    driven: &Driven,
    machine: &M,
    code: &[u32],
    dump: Option<Dump>,
) -> Result<(), AllocError>
    ensures { OnOk result ((p : Program) (h : List Bool) → M.stands machine.now p h
        → text.new.items ≡ text.old.items ++ report_text driven.now.halted driven.now.counts driven.now.console.items code.now (state_after p h).core dump) }
{
    push_head(alloc, text, driven, code)?;
    push_last(alloc, text, machine, driven.halted, dump)?;
    Ok(())
}

/// The report of a run: the lines of its trace, how it ended, its counts and those of the image, its console, and at
/// a halt the registers, MD and the data words of the dump. The machine is as the run left it.
pub fn report<M: Machine>(
    alloc: Global,
    driven: &Driven,
    machine: &M,
    image: &Image,
    dump: Option<Dump>,
) -> Result<Vec<u8>, Memory>
    ensures { IfOk result (λ t. (p : Program) (h : List Bool) → M.stands machine.now p h
        → t.items ≡ driven.now.trace.items
        ++ report_text driven.now.halted driven.now.counts driven.now.console.items image.now.code.items (state_after p h).core dump) }
{
    let Ok(mut text) = Vec::from_slice(alloc, driven.trace.as_slice()) else {
        return Err(Memory);
    };
    match push_report(
        alloc,
        &mut text,
        driven,
        machine,
        image.code.as_slice(),
        dump,
    ) {
        Ok(()) => Ok(text),
        Err(_) => Err(Memory),
    }
}
