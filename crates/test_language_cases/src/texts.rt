//! Cases of source texts.
use crate::spelling;
use anyhow::{Context, Result, bail, ensure};
use cmd_answer::Reply;
use cmd_meaning::meaning_reply;
use mx_asm::assemble;
use mx_gen::generate;
use mx_lines::AsmError;
use mx_source::Source;
use std::alloc::Global;
use std::fs;
use test_case_files::{answered, before, behind, halves, number, text_of_lines};

/// A text assembles to a source, or is refused with its first faulty line and the fault.
#[derive(Drop)]
pub enum Assembled {
    Source(Source),
    Refused { line: u32, fault: String },
}

/// What a text assembles to.
pub fn assemble_text(alloc: Global, text: &[u8]) -> Result<Assembled> {
    ensure!(text.len() <= 4_194_304, "the text is too long");
    match assemble(alloc, text) {
        Ok(source) => Ok(Assembled::Source(source)),
        Err(AsmError::Refused { line, fault }) => {
            let fault = format!(in alloc; "{fault}")?;
            Ok(Assembled::Refused { line, fault })
        }
        Err(AsmError::Memory) => bail!("out of memory"),
    }
}

/// What the text of a file assembles to.
fn assemble_file(rt: &HostRuntime, path: String) -> Result<Assembled> {
    let text = fs::read(rt, path)?;
    assemble_text(rt.alloc(), text.as_slice())
}

/// The exit status of a source's meaning in 1,000,000 steps, and what is printed.
fn meaning_of(alloc: Global, source: &Source, input: &[u8]) -> Result<(u8, Vec<u8>)> {
    ensure!(input.len() <= 1_048_576, "the input is too long");
    match meaning_reply(alloc, source, input, 1_000_000)? {
        Reply::Prints { status, output } => Ok((status.number(), output)),
        Reply::Writes { .. } => bail!("a meaning that writes a file"),
    }
}

/// The printed text reads as the same source, and is printed as it was.
fn reads_back(alloc: Global, source: &Source) -> Result<bool> {
    let text = source.print(alloc)?;
    reads_as(alloc, text.as_slice(), source)
}

fn reads_as(alloc: Global, text: &[u8], source: &Source) -> Result<bool> {
    match assemble_text(alloc, text)? {
        Assembled::Source(again) => Ok(is_same(&again, source) && prints(alloc, &again, text)?),
        Assembled::Refused { .. } => Ok(false),
    }
}

fn is_same(one: &Source, other: &Source) -> bool {
    one.statements() == other.statements()
        && one.user_data() == other.user_data()
        && one.input().is_some() == other.input().is_some()
}

fn prints(alloc: Global, source: &Source, text: &[u8]) -> Result<bool> {
    let printed = source.print(alloc)?;
    Ok(printed.as_slice() == text)
}

fn fault_told(alloc: Global, name: &str, assembled: &Assembled) -> Result<String> {
    match assembled {
        Assembled::Source(_) => Ok(format!(in alloc; "{name} no fault")?),
        Assembled::Refused { line, fault } => Ok(format!(in alloc; "{name} line {line}: {fault}")?),
    }
}

/// The first fault of the text `faults/NAME.s`, for the case `NAME line N: FAULT`.
pub fn fault(rt: &HostRuntime, line: &str) -> Result<String> {
    let alloc = rt.alloc();
    let name = before(line, " ")?;
    let assembled = assemble_file(rt, format!(in alloc; "faults/{name}.s")?)?;
    fault_told(alloc, name, &assembled)
}

/// How the meaning of a source ends that is named `NAME` or `NAME INPUT`.
fn source_told(rt: &HostRuntime, case: &str, source: &Source) -> Result<String> {
    let (name, input) = case.split_once(" ").unwrap_or((case, ""));
    let (status, note) = meant(rt, name, source, input.as_bytes())?;
    Ok(format!(in rt.alloc(); "{status} {case}{note}")?)
}

fn meaning_told(rt: &HostRuntime, case: &str, assembled: &Assembled) -> Result<String> {
    match assembled {
        Assembled::Source(source) => source_told(rt, case, source),
        Assembled::Refused { line, fault } => {
            Ok(format!(in rt.alloc(); "1 {case}, line {line}: {fault}")?)
        }
    }
}

/// How the meaning of `meanings/NAME.s` ends, for the case `STATUS NAME` or `STATUS NAME INPUT`. What it prints
/// stands in `meanings/NAME.out`, and the canonical text of the source in `meanings/NAME.txt`.
pub fn meaning(rt: &HostRuntime, line: &str) -> Result<String> {
    let case = behind(line, " ")?;
    let (name, _) = case.split_once(" ").unwrap_or((case, ""));
    let assembled = assemble_file(rt, format!(in rt.alloc(); "meanings/{name}.s")?)?;
    meaning_told(rt, case, &assembled)
}

/// The exit status of a source's meaning, and what differs from what is stored of it.
fn meant(
    rt: &HostRuntime,
    name: &str,
    source: &Source,
    input: &[u8],
) -> Result<(u8, &'static str)> {
    let (status, output) = meaning_of(rt.alloc(), source, input)?;
    Ok((status, difference(rt, name, source, output.as_slice())?))
}

fn difference(
    rt: &HostRuntime,
    name: &str,
    source: &Source,
    output: &[u8],
) -> Result<&'static str> {
    if !is_stored(rt, name, "out", output)? {
        Ok(", of another meaning")
    } else if !prints_stored(rt, name, source)? {
        Ok(", printed otherwise")
    } else if !reads_back(rt.alloc(), source)? {
        Ok(", not read back")
    } else {
        Ok("")
    }
}

fn is_stored(rt: &HostRuntime, name: &str, ending: &str, bytes: &[u8]) -> Result<bool> {
    let wanted = fs::read(rt, format!(in rt.alloc(); "meanings/{name}.{ending}")?)?;
    Ok(wanted.as_slice() == bytes)
}

fn prints_stored(rt: &HostRuntime, name: &str, source: &Source) -> Result<bool> {
    let printed = source.print(rt.alloc())?;
    is_stored(rt, name, "txt", printed.as_slice())
}

/// What a text is, in the code section behind the label `here`, where `words` is a data label, for the case
/// `LINE / LINE .. -> WHAT`.
pub fn statement(alloc: Global, line: &str) -> Result<String> {
    let text = before(line, " -> ")?;
    let answer = read_behind_labels(alloc, text)?;
    answered(alloc, text, answer.as_str())
}

fn read_behind_labels(alloc: Global, text: &str) -> Result<String> {
    let whole = behind_labels(alloc, text)?;
    match assemble_text(alloc, whole.as_slice())? {
        Assembled::Source(source) => listed(alloc, &source),
        Assembled::Refused { fault, .. } => Ok(fault),
    }
}

/// The lines of a text behind the two labels. The last of them has no end.
fn behind_labels(alloc: Global, text: &str) -> Result<Vec<u8>> {
    let told = format!(in alloc; ".data / words: .code / here: {text}")?;
    let mut whole = text_of_lines(alloc, told.as_str())?;
    whole.pop();
    Ok(whole)
}

/// The first statement, or the number of data words with the last.
fn listed(alloc: Global, source: &Source) -> Result<String> {
    if let Some(statement) = source.statements().first() {
        return Ok(spelling::statement(alloc, statement)?);
    }
    let count = source.user_data().len();
    let last = source.user_data().last().context("nothing")?;
    Ok(format!(in alloc; "{count} words, the last {last:?}")?)
}

/// How the generated source of a seed and a number of items ends, as `SEED COUNT: halted, steps N, console N`.
pub fn generated(alloc: Global, line: &str) -> Result<String> {
    let case = before(line, ":")?;
    let (seed, count) = halves(case, " ")?;
    let (seed, count) = (number(seed)?, number(count)?);
    let end = end_of_generated(alloc, seed, count)?;
    Ok(format!(in alloc; "{seed} {count}:{end}")?)
}

fn end_of_generated(alloc: Global, seed: u32, count: u32) -> Result<String> {
    ensure!(count <= 4000, "too many items");
    let source = generate(alloc, seed, count)?;
    let note = if reads_back(alloc, &source)? {
        ""
    } else {
        ", not read back"
    };
    end_of(alloc, &source, note)
}

/// The first three lines of what is told of a source's meaning, each behind a blank, and a note.
fn end_of(alloc: Global, source: &Source, note: &str) -> Result<String> {
    let (_, output) = meaning_of(alloc, source, b"")?;
    first_lines(alloc, output.as_slice(), note)
}

fn first_lines(alloc: Global, output: &[u8], note: &str) -> Result<String> {
    let mut lines = String::new(alloc);
    for line in output.split(|byte| *byte == b'\n').take(3) {
        lines.push(' ')?;
        lines.push_str(str::from_utf8(line)?)?;
    }
    lines.push_str(note)?;
    Ok(lines)
}
