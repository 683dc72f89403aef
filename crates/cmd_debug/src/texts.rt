//! What is printed of a session.
ghost use Rattle.std.specs.Prelude.{◌≡◌, ◌≤◌, ◌+◌, ◌++◌, codes, length, OnOk, IfOk, slice_index, string_bytes};
ghost use Rattle.std.specs.Fmt.{decimal};
ghost use Rattle.mx_text.specs.Text.{word_text, line, named_line, count_line, register_line, lines_from, word_line, console_lines};
ghost use Rattle.cmd_debug.specs.Sessions.{status_of};
ghost use Rattle.cmd_debug.specs.Texts.{stop_line, file_text, stop_text, stops_text, ending_text, session_text};

use cmd_answer::Status;
use mx_debug::{Ending, Stop, Stopped};
use mx_text::{
    push_console, push_count, push_line, push_named, push_register, push_word, push_word_line,
};
use std::alloc::{AllocError, Global};

// Appends the first line of a stop.
fn push_stop_line(
    alloc: Global,
    text: &mut Vec<u8>,
    number: u64,
    stop: &Stop,
) -> Result<(), AllocError>
    ensures { OnOk result (text.new.items ≡ text.old.items ++ stop_line number stop.now.cycle stop.now.bytes) }
{
    let cycle = stop.cycle;
    let bytes = stop.bytes;
    let line = format!(in alloc; "stop {number} cycle {cycle} bytes {bytes}")?;
    push_line(text, line.as_str())
}

// Appends the line of a register.
fn push_value(alloc: Global, text: &mut Vec<u8>, n: usize, value: u32) -> Result<(), AllocError>
    ensures { OnOk result (text.new.items ≡ text.old.items ++ register_line n (word_text value)) }
{
    let mut word = Vec::new(alloc);
    push_word(&mut word, value)?;
    push_register(alloc, text, n as u64, word.as_slice())
}

// Appends the lines of registers 1 to 31.
fn push_registers(
    alloc: Global,
    text: &mut Vec<u8>,
    registers: &[u32; 32],
) -> Result<(), AllocError>
    ensures { OnOk result (text.new.items ≡ text.old.items ++ lines_from (λ n. register_line n (word_text (slice_index registers.now n))) 31 1) }
{
    for n in 1..32usize {
        push_value(alloc, text, n, registers[n])?;
    }
    Ok(())
}

// Appends the lines of the registers and MD.
fn push_file(
    alloc: Global,
    text: &mut Vec<u8>,
    registers: &[u32; 32],
    md: u32,
) -> Result<(), AllocError>
    ensures { OnOk result (text.new.items ≡ text.old.items ++ file_text registers.now md) }
{
    push_registers(alloc, text, registers)?;
    let mut word = Vec::new(alloc);
    push_word(&mut word, md)?;
    push_named(text, b"md".as_slice(), word.as_slice())
}

// Appends a stop, where this data word is watched.
fn push_stop(
    alloc: Global,
    text: &mut Vec<u8>,
    watch: u32,
    number: u64,
    stop: &Stop,
) -> Result<(), AllocError>
    ensures { OnOk result (text.new.items ≡ text.old.items ++ stop_text watch number stop.now) }
{
    push_stop_line(alloc, text, number, stop)?;
    push_file(alloc, text, &stop.registers, stop.md)?;
    push_word_line(text, watch, stop.word)
}

// Appends stops, counted from 1.
fn push_stops(
    alloc: Global,
    text: &mut Vec<u8>,
    watch: u32,
    stops: &[Stop],
) -> Result<(), AllocError>
    requires { length stops.now ≤ 1000 }
    ensures { OnOk result (text.new.items ≡ text.old.items ++ stops_text watch 1 stops.now) }
{
    for index in 0..stops.len() {
        push_stop(alloc, text, watch, index as u64 + 1, &stops[index])?;
    }
    Ok(())
}

/// How a session ended: the status, and the words for it.
pub fn ended(ending: Ending) -> (Status, &'static str)
    ensures status { result.0 ≡ status_of ending }
    ensures text { result.1.now ≡ ending_text ending }
{
    match ending {
        Ending::Stopped => (Status::Done, "stopped"),
        Ending::Halted => (Status::Halted, "halted"),
        Ending::OutOfBudget => (Status::OutOfBudget, "out of budget"),
    }
}

/// The text of a session, in which this data word was watched.
pub fn session_text(alloc: Global, watch: u32, stopped: &Stopped) -> Result<Vec<u8>, AllocError>
    requires { length stopped.now.stops.items ≤ 1000 }
    ensures { IfOk result (λ text. text.items ≡ session_text watch stopped.now.stops.items stopped.now.ending stopped.now.console.items) }
{
    let mut text = Vec::new(alloc);
    let stops = stopped.stops.as_slice();
    push_stops(alloc, &mut text, watch, stops)?;
    push_line(&mut text, ended(stopped.ending).1)?;
    push_count(alloc, &mut text, "stops", stops.len() as u64)?;
    push_console(alloc, &mut text, stopped.console.as_slice())?;
    Ok(text)
}
