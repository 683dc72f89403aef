//! The text of a meaning.
ghost use Rattle.std.specs.Prelude.{◌≡◌, ◌≤◌, ◌+◌, ◌++◌, ◌∷◌, codes, length, OnOk, IfOk, slice_index};
ghost use Rattle.std.specs.Fmt.{decimal};
ghost use Rattle.mx_io.specs.declared.limits.TheConstants.{MAX_FILE_BYTES};
ghost use Rattle.mx_isa.specs.declared.Place.{Place};
ghost use Rattle.mx_source.specs.Values.{value_in};
ghost use Rattle.mx_source.specs.Meaning.{State, Run};
ghost use Rattle.mx_seq.specs.Seqs.{program_of, state_of};
ghost use Rattle.mx_text.specs.Text.{word_text, line, named_line, count_line, register_line, lines_from, console_lines};
ghost use Rattle.cmd_answer.specs.Replies.{reply_answer};
ghost use Rattle.cmd_meaning.specs.Told.{why_text, mark_text, value_text, registers_text, last_text, meaning_text, status_of, meaning_answer};
ghost use Rattle.cmd_meaning.specs.Endings.{mark_of, told_text};
ghost use Rattle.mx_isa.specs.Board.{board};

use crate::steps::{Ending, Progress, run_steps};
use cmd_answer::{Reply, Status};
use mx_io::Memory;
use mx_isa::{BOARD, Reg};
use mx_seq::Seq;
use mx_source::{Source, Value, Why};
use mx_text::{
    push_console, push_count, push_decimal, push_line, push_named, push_register, push_word,
};
use std::alloc::{AllocError, Global};

/// The word for why a run is stuck.
pub fn why_text(why: Why) -> &'static str
    ensures { result.now ≡ why_text why }
{
    match why {
        Why::PastEnd => "PastEnd",
        Why::CodeOperand => "CodeOperand",
        Why::LoadOutside => "LoadOutside",
        Why::StoreOutside => "StoreOutside",
        Why::CodeToConsole => "CodeToConsole",
        Why::JumpNotCode => "JumpNotCode",
    }
}

/// The line of a statement, 0 past the last one.
pub fn line_at(lines: &[u32], index: u32) -> u32
    ensures { result ≡ slice_index lines.now index }
{
    match lines.get(index as usize) {
        Some(line) => *line,
        None => 0,
    }
}

// Appends how the run stands.
fn push_ending(
    alloc: Global,
    text: &mut Vec<u8>,
    lines: &[u32],
    index: u32,
    ending: &Ending,
) -> Result<(), AllocError>
    ensures { OnOk result (text.new.items ≡ text.old.items ++ mark_text lines.now index (mark_of ending.now)) }
{
    match *ending {
        Ending::Running => push_line(text, "running"),
        Ending::Halted => push_line(text, "halted"),
        Ending::Stuck(why) => {
            let number = line_at(lines, index);
            let why = why_text(why);
            let words = format!(in alloc; "stuck line {number} {why}")?;
            push_line(text, words.as_str())
        }
    }
}

// Appends a value.
fn push_value(alloc: Global, text: &mut Vec<u8>, value: Value) -> Result<(), AllocError>
    ensures { OnOk result (text.new.items ≡ text.old.items ++ value_text value) }
{
    match value {
        Value::Int(word) => push_word(text, word),
        Value::Code(index) => {
            text.extend_from_slice(b"code ".as_slice())?;
            push_decimal(alloc, text, u64::from(index))
        }
    }
}

// Appends the line of a register.
fn push_register_of(alloc: Global, text: &mut Vec<u8>, seq: &Seq, n: u8) -> Result<(), AllocError>
    requires { n ≤ 31 }
    ensures { OnOk result (text.new.items ≡ text.old.items ++ register_line n (value_text (value_in (state_of seq.now).regs n))) }
{
    let mut value = Vec::new(alloc);
    if let Some(register) = Reg::new(n) {
        push_value(alloc, &mut value, seq.register(register))?;
    }
    push_register(alloc, text, u64::from(n), value.as_slice())
}

// Appends the lines of registers 1 to 31.
fn push_registers(alloc: Global, text: &mut Vec<u8>, seq: &Seq) -> Result<(), AllocError>
    ensures { OnOk result (text.new.items ≡ text.old.items ++ lines_from (λ n. register_line n (value_text (value_in (state_of seq.now).regs n))) 31 1) }
{
    for n in 1..32u8 {
        push_register_of(alloc, text, seq, n)?;
    }
    Ok(())
}

// Appends the registers and MD.
fn push_file(alloc: Global, text: &mut Vec<u8>, seq: &Seq) -> Result<(), AllocError>
    ensures { OnOk result (text.new.items ≡ text.old.items ++ registers_text (state_of seq.now)) }
{
    push_line(text, "registers")?;
    push_registers(alloc, text, seq)?;
    let mut word = Vec::new(alloc);
    push_word(&mut word, seq.md())?;
    push_named(text, b"md".as_slice(), word.as_slice())
}

// Appends what a halt adds.
fn push_last(alloc: Global, text: &mut Vec<u8>, seq: &Seq, ending: Ending) -> Result<(), AllocError>
    ensures { OnOk result (text.new.items ≡ text.old.items ++ last_text (mark_of ending) (state_of seq.now)) }
{
    match ending {
        Ending::Halted => push_file(alloc, text, seq),
        _ => Ok(()),
    }
}

// Appends how the run stands, its steps and its console.
fn push_head(
    alloc: Global,
    text: &mut Vec<u8>,
    lines: &[u32],
    index: u32,
    progress: &Progress,
    console: &[u8],
) -> Result<(), AllocError>
    ensures { OnOk result
        (text.new.items ≡ text.old.items
        ++ ((mark_text lines.now index (mark_of progress.now.ending) ++ count_line (codes "steps") progress.now.steps) ++ console_lines console.now)) }
{
    push_ending(alloc, text, lines, index, &progress.ending)?;
    push_count(alloc, text, "steps", u64::from(progress.steps))?;
    push_console(alloc, text, console)
}

// The whole text of a run.
#[tactic(auto, unfolding(crate::specs::Endings::told_text))]
fn text_of(
    alloc: Global,
    lines: &[u32],
    seq: &Seq,
    progress: &Progress,
    console: &[u8],
) -> Result<Vec<u8>, AllocError>
    ensures { IfOk result (λ t. t.items ≡ told_text lines.now (state_of seq.now) console.now progress.now) }
{
    let mut text = Vec::new(alloc);
    push_head(alloc, &mut text, lines, seq.index(), progress, console)?;
    push_last(alloc, &mut text, seq, progress.ending)?;
    Ok(text)
}

// The status of a run that stands so.
fn status_of(ending: &Ending) -> Status
    ensures { result ≡ status_of (mark_of ending.now) }
{
    match ending {
        Ending::Running => Status::OutOfBudget,
        Ending::Halted => Status::Halted,
        Ending::Stuck(_) => Status::Stuck,
    }
}

/// What a source means after at most so many steps, with the bytes of its input, at the place of the board: how it stands,
/// the steps that went or halted, the console, and at a halt the registers.
pub fn meaning_reply(
    alloc: Global,
    source: &Source,
    input: &[u8],
    steps: u32,
) -> Result<Reply, Memory>
    requires { length input.now ≤ MAX_FILE_BYTES }
    ensures { IfOk result (λ r. reply_answer r ≡ meaning_answer source.now board input.now steps) }
{
    let lines = source.lines();
    let mut seq = Seq::new(alloc, source, BOARD, input)?;
    let mut console = Vec::new(alloc);
    let Ok(progress) = run_steps(&mut seq, &mut console, steps) else {
        return Err(Memory);
    };
    let Ok(output) = text_of(alloc, lines, &seq, &progress, console.as_slice()) else {
        return Err(Memory);
    };
    let status = status_of(&progress.ending);
    Ok(Reply::Prints { status, output })
}
