//! Stored assembly, translated.
use anyhow::{Result, bail, ensure};
use cc_command::cc;
use cmd_answer::{Reply, Status};
use cmd_meaning::meaning_reply;
use mx_asm::assemble;
use mx_io::{MemoryShelf, MemorySink};
use std::alloc::Global;
use test_case_files::{before, behind, halves, stored, stored_shelf, wanted_text, words_of};

/// The most bytes of a translation.
const ROOM: usize = 1_048_576;

/// How many bytes the sink takes at most in one put.
const PIECE: usize = 4096;

/// How many statements of a program are executed at most.
const STEPS: u32 = 3_000_000;

/// How the command ended on the files that a line names, and what it printed.
fn translated(rt: &HostRuntime, line: &str) -> Result<(Status, MemorySink)> {
    let mut shelf = stored_shelf(rt, line)?;
    translated_from(rt.alloc(), line, &mut shelf)
}

fn translated_from(
    alloc: Global,
    line: &str,
    shelf: &mut MemoryShelf,
) -> Result<(Status, MemorySink)> {
    let words = words_of(alloc, line)?;
    let mut out = MemorySink::new(alloc, PIECE, ROOM)?;
    let status = cc(alloc, words.as_slice(), shelf, &mut out);
    Ok((status, out))
}

/// What a text means, as it is told.
fn meaning_of(alloc: Global, text: &[u8], input: &[u8]) -> Result<String> {
    ensure!(text.len() <= 4_194_304, "the text is too long");
    ensure!(input.len() <= 1_048_576, "the input is too long");
    let Ok(source) = assemble(alloc, text) else {
        bail!("the translation has a fault");
    };
    match meaning_reply(alloc, &source, input, STEPS)? {
        Reply::Prints { output, .. } => match String::from_utf8(output) {
            Ok(told) => Ok(told),
            Err(_) => bail!("the console is no text"),
        },
        Reply::Writes { .. } => bail!("a meaning that writes a file"),
    }
}

/// The input of a program, of which there may be none.
fn input_of(rt: &HostRuntime, name: &str) -> Result<Vec<u8>> {
    let name = format!(in rt.alloc(); "{name}.in")?;
    match stored(rt, name.as_str())? {
        Some(bytes) => Ok(bytes),
        None => Ok(Vec::new(rt.alloc())),
    }
}

/// What the meaning of a translated program tells on its input.
fn told_of(rt: &HostRuntime, name: &str, program: &[u8]) -> Result<String> {
    let input = input_of(rt, name)?;
    meaning_of(rt.alloc(), program, input.as_slice())
}

/// What is told of a console that is `wanted/NAME`.
fn console_of(rt: &HostRuntime, name: &str) -> Result<String> {
    let alloc = rt.alloc();
    let wanted = wanted_text(rt, name)?;
    let count = wanted.len();
    Ok(format!(in alloc; "console {count}\n{wanted}")?)
}

/// Whether a translated program halts, and prints what is wanted.
fn prints_wanted(rt: &HostRuntime, name: &str, program: &[u8]) -> Result<bool> {
    let console = console_of(rt, name)?;
    let told = told_of(rt, name, program)?;
    Ok(told.as_str().starts_with("halted") && told.as_str().contains(console.as_str()))
}

/// What differs from what is wanted of the program in these files.
fn note_on(rt: &HostRuntime, name: &str, files: &str) -> Result<&'static str> {
    let (status, out) = translated(rt, files)?;
    if status != Status::Done {
        Ok(", refused")
    } else if prints_wanted(rt, name, out.written())? {
        Ok("")
    } else {
        Ok(", another console")
    }
}

/// The case `NAME: FILES`. What the program prints is `wanted/NAME`, and its input `files/NAME.in`, if it has one.
pub fn run(rt: &HostRuntime, case: &str) -> Result<String> {
    let (name, files) = halves(case, ": ")?;
    let note = note_on(rt, name, files)?;
    Ok(format!(in rt.alloc(); "{case}{note}")?)
}

/// A text without its last byte, which ends its line.
fn without_end(alloc: Global, text: &[u8]) -> Result<String> {
    let mut line = Vec::from_slice(alloc, text)?;
    line.truncate(line.len().saturating_sub(1));
    match String::from_utf8(line) {
        Ok(line) => Ok(line),
        Err(_) => bail!("the line is no text"),
    }
}

/// The exit status of the command on a file, and the line that it prints.
fn refused(rt: &HostRuntime, file: &str) -> Result<(u8, String)> {
    let (status, out) = translated(rt, file)?;
    Ok((status.number(), without_end(rt.alloc(), out.written())?))
}

/// How the command ends on a file, for the case `STATUS FILE => LINE`, where that is the line that it prints.
pub fn refusal(rt: &HostRuntime, line: &str) -> Result<String> {
    let file = before(behind(line, " ")?, " => ")?;
    let (status, said) = refused(rt, file)?;
    Ok(format!(in rt.alloc(); "{status} {file} => {said}")?)
}
