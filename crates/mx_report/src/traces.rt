//! The lines of a trace.
ghost use Rattle.std.specs.Prelude.{◌≡◌, ◌++◌, OnOk, IfOk, codes};
ghost use Rattle.mx_text.specs.Text.{word_text};
ghost use Rattle.mx_report.specs.Trace.{stage_text, spaced, stages_text, numbers_text, line_of, trace_line};

use mx_io::Memory;
use mx_text::{push_decimal, push_word};
use mx_turn::{Cycled, Latches, Stage};
use std::alloc::{AllocError, Global};

// Appends a stage behind a blank.
fn push_stage(text: &mut Vec<u8>, stage: &Stage) -> Result<(), AllocError>
    ensures { OnOk result (text.new.items ≡ text.old.items ++ spaced (stage_text stage.now)) }
{
    text.push(b' ')?;
    match stage {
        Stage::Empty => text.extend_from_slice(b"--------".as_slice()),
        Stage::Live(address) => push_word(text, *address),
        Stage::Squashed(address) => {
            push_word(text, *address)?;
            text.push(b'*')?;
            Ok(())
        }
    }
}

// Appends a word behind a blank.
fn push_number(text: &mut Vec<u8>, word: u32) -> Result<(), AllocError>
    ensures { OnOk result (text.new.items ≡ text.old.items ++ spaced (word_text word)) }
{
    text.push(b' ')?;
    push_word(text, word)
}

// Appends the five stages.
fn push_stages(text: &mut Vec<u8>, latches: &Latches) -> Result<(), AllocError>
    ensures { OnOk result (text.new.items ≡ text.old.items ++ stages_text latches.now) }
{
    push_stage(text, &latches.fetch)?;
    push_stage(text, &latches.rf)?;
    push_stage(text, &latches.alu)?;
    push_stage(text, &latches.mem)?;
    push_stage(text, &latches.wb)
}

// Appends the three numbers of the word in ALU.
fn push_numbers(text: &mut Vec<u8>, latches: &Latches) -> Result<(), AllocError>
    ensures { OnOk result (text.new.items ≡ text.old.items ++ numbers_text latches.now) }
{
    push_number(text, latches.a)?;
    push_number(text, latches.b)?;
    push_number(text, latches.result)
}

// Appends what the latches show.
fn push_latches(text: &mut Vec<u8>, latches: &Latches) -> Result<(), AllocError>
    ensures { OnOk result (text.new.items ≡ text.old.items ++ (stages_text latches.now ++ numbers_text latches.now)) }
{
    push_stages(text, latches)?;
    push_numbers(text, latches)
}

/// Appends the line of a cycle, stalled or not.
// Few cycles have a line: a call of its own keeps the loop over all of them short.
#[inline(never)]
pub fn push_trace_line(
    alloc: Global,
    text: &mut Vec<u8>,
    cycle: u32,
    stalled: bool,
    latches: &Latches,
) -> Result<(), AllocError>
    ensures { OnOk result (text.new.items ≡ text.old.items ++ line_of cycle stalled latches.now) }
{
    push_decimal(alloc, text, u64::from(cycle))?;
    if stalled {
        text.extend_from_slice(b" stall".as_slice())?;
    } else {
        push_latches(text, latches)?;
    }
    text.push(b'\n')?;
    Ok(())
}

/// The line of a cycle, counted from 0: `C stall`, or the stages IF, RF, ALU, MEM and WB and the numbers A, B and R.
pub fn trace_line(
    alloc: Global,
    cycle: u32,
    cycled: &Cycled,
    latches: &Latches,
) -> Result<Vec<u8>, Memory>
    ensures { IfOk result (λ t. t.items ≡ trace_line cycle cycled.now latches.now) }
{
    let mut text = Vec::new(alloc);
    match push_trace_line(alloc, &mut text, cycle, cycled.stalled, latches) {
        Ok(()) => Ok(text),
        Err(_) => Err(Memory),
    }
}
