//! Cases of whole commands over stored files.
use crate::case::{Case, spelled};
use anyhow::Result;
use mx_command::Status;
use std::alloc::Global;
use test_case_files::{answered, before, behind, halves, number, wanted};

/// What is said of a command that changes a file.
const CHANGES: &str = ", which changes a file";

/// How a command ends, for the case `STATUS NAME: WORDS`. What it prints stands in `wanted/NAME`, and what it writes
/// in `wanted/NAME.hex`, where that is there; no other file has changed.
pub fn run(rt: &HostRuntime, line: &str) -> Result<String> {
    let case = behind(line, " ")?;
    let (name, words) = halves(case, ":")?;
    let (status, note) = outcome(rt, name, words.trim_start())?;
    Ok(format!(in rt.alloc(); "{status} {case}{note}")?)
}

/// The exit status of a command, and what differs.
fn outcome(rt: &HostRuntime, name: &str, words: &str) -> Result<(u8, &'static str)> {
    let mut command = Case::stored(rt, words)?;
    let status = command.run(rt.alloc());
    Ok((status.number(), difference(rt, name, &mut command)?))
}

/// What differs from what is wanted of a command.
fn difference(rt: &HostRuntime, name: &str, command: &mut Case) -> Result<&'static str> {
    let alloc = rt.alloc();
    if !prints_wanted(rt, name, command)? {
        return Ok(", of another output");
    }
    match spelled(rt, format!(in alloc; "wanted/{name}.hex")?)? {
        Some(file) => written_note(alloc, command, file.as_slice()),
        None => kept_note(alloc, command),
    }
}

fn prints_wanted(rt: &HostRuntime, name: &str, command: &Case) -> Result<bool> {
    let wanted = wanted(rt, name)?;
    Ok(command.printed() == wanted.as_slice())
}

fn written_note(alloc: Global, command: &mut Case, wanted: &[u8]) -> Result<&'static str> {
    let file = command.written(alloc)?;
    if file.as_slice() == wanted {
        Ok("")
    } else {
        Ok(", of another file")
    }
}

fn kept_note(alloc: Global, command: &mut Case) -> Result<&'static str> {
    if command.keeps_files(alloc)? {
        Ok("")
    } else {
        Ok(CHANGES)
    }
}

/// How a command ends whose read or write with a number fails, and the first line that it prints, for the case
/// `STATUS NUMBER: WORDS -> LINE`. Where it is not done, no file has changed.
pub fn failing(rt: &HostRuntime, line: &str) -> Result<String> {
    let told = before(behind(line, " ")?, " -> ")?;
    let (call, words) = halves(told, ": ")?;
    let call = number(call)?;
    let mut case = Case::stored(rt, words)?;
    case.fail_at(u64::from(call))?;
    failed(rt.alloc(), &mut case, told)
}

fn failed(alloc: Global, case: &mut Case, told: &str) -> Result<String> {
    let status = case.run(alloc);
    let note = match status {
        Status::Done => "",
        _ => kept_note(alloc, case)?,
    };
    let first = case.text()?.lines().next().unwrap_or("nothing");
    let status = status.number();
    Ok(format!(in alloc; "{status} {told} -> {first}{note}")?)
}

/// What the run of a program sends that `join` prints of these modules, for the case `MODULES -> BYTES`.
pub fn joined(rt: &HostRuntime, line: &str) -> Result<String> {
    let modules = before(line, " -> ")?;
    let sent = sent_by_joined(rt, modules)?;
    answered(rt.alloc(), modules, sent.as_str())
}

fn sent_by_joined(rt: &HostRuntime, modules: &str) -> Result<String> {
    let alloc = rt.alloc();
    let mut join = Case::stored_between(rt, "join", modules, "")?;
    join.run(alloc);
    sent_by(alloc, join.printed())
}

/// What the run of a program sends.
fn sent_by(alloc: Global, program: &[u8]) -> Result<String> {
    let mut run = Case::new(alloc, "run program")?;
    run.add(alloc, "program", Vec::from_slice(alloc, program)?)?;
    sent(alloc, run.run_for_text(alloc)?)
}

/// What was sent, by the report of a run.
fn sent(alloc: Global, report: &str) -> Result<String> {
    let console = behind(report, "\nconsole ")?;
    let sent = before(behind(console, "\n")?, "\n")?;
    Ok(String::from_str(alloc, sent)?)
}

/// Whether `exec` of the image file of a source ends and prints as `run` of the source does with the same options, for
/// the case `SOURCE` or `SOURCE OPTIONS`.
pub fn built(rt: &HostRuntime, line: &str) -> Result<String> {
    let note = if is_built(rt, line)? {
        ""
    } else {
        ", otherwise"
    };
    Ok(format!(in rt.alloc(); "{line}{note}")?)
}

fn is_built(rt: &HostRuntime, line: &str) -> Result<bool> {
    let mut run = Case::stored_between(rt, "run", line, "")?;
    let status = run.run(rt.alloc());
    is_executed(rt, line, status, run.printed())
}

/// Whether the image file of a source ends and prints so.
fn is_executed(rt: &HostRuntime, line: &str, status: Status, printed: &[u8]) -> Result<bool> {
    let (source, options) = line.split_once(" ").unwrap_or((line, ""));
    let image = image_of(rt, source)?;
    let mut exec = executing(rt, options, image)?;
    Ok(exec.run(rt.alloc()) == status && exec.printed() == printed)
}

fn image_of(rt: &HostRuntime, source: &str) -> Result<Vec<u8>> {
    let alloc = rt.alloc();
    let mut build = Case::stored_between(rt, "build", source, "image")?;
    build.run(alloc);
    build.written(alloc)
}

fn executing(rt: &HostRuntime, options: &str, image: Vec<u8>) -> Result<Case> {
    let mut exec = Case::stored_between(rt, "exec image", options, "")?;
    exec.add(rt.alloc(), "image", image)?;
    Ok(exec)
}

/// The value behind a name, where a line is `NAME VALUE`.
fn value_of<'a>(line: &'a str, name: &str) -> Option<&'a str> {
    let (found, value) = line.split_once(" ")?;
    if found == name { Some(value) } else { None }
}

/// What the stops that `debug` tells show under a name, in order, for the case `WORDS -> NAME VALUES`.
pub fn stops(rt: &HostRuntime, line: &str) -> Result<String> {
    let (words, told) = halves(line, " -> ")?;
    let name = before(told, " ")?;
    let values = values_told(rt, words, name)?;
    Ok(format!(in rt.alloc(); "{words} -> {name}{values}")?)
}

fn values_told(rt: &HostRuntime, words: &str, name: &str) -> Result<String> {
    let alloc = rt.alloc();
    let mut case = Case::stored(rt, words)?;
    values_of(alloc, case.run_for_text(alloc)?, name)
}

/// The values behind a name, each behind a blank.
fn values_of(alloc: Global, text: &str, name: &str) -> Result<String> {
    let mut values = String::new(alloc);
    for line in text.lines() {
        if let Some(value) = value_of(line, name) {
            values.push_str(" ")?;
            values.push_str(value)?;
        }
    }
    Ok(values)
}
