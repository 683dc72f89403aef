//! Cases of long sources, which are told by lines and how often each stands.
use crate::case::Case;
use anyhow::Result;
use std::alloc::Global;
use test_case_files::{answered, before, halves, text_of_lines};

/// A command on the name `source`, which comes last, where the command does not have it.
fn naming_source(alloc: Global, command: &str) -> Result<Case> {
    if command.contains(" source") {
        return Case::new(alloc, command);
    }
    let words = format!(in alloc; "{command} source")?;
    Case::new(alloc, words.as_str())
}

/// A command on a source that is told by lines.
fn on_lines(alloc: Global, command: &str, lines: &str) -> Result<Case> {
    let mut case = naming_source(alloc, command)?;
    case.add(alloc, "source", text_of_lines(alloc, lines)?)?;
    Ok(case)
}

fn beginning(alloc: Global, command: &str, lines: &str) -> Result<String> {
    let mut case = on_lines(alloc, command, lines)?;
    case.beginning(alloc)
}

/// How a command ends and the first line that it prints, for the case `COMMAND: LINE / COUNT * LINE / .. -> STATUS LINE`.
pub fn repeated(alloc: Global, line: &str) -> Result<String> {
    let told = before(line, " -> ")?;
    let (command, lines) = halves(told, ": ")?;
    let answer = beginning(alloc, command, lines)?;
    answered(alloc, told, answer.as_str())
}

/// How many of the wanted lines `LINE / LINE ..` a text does not have.
fn missing(text: &str, wanted: &str) -> u64 {
    let mut count = 0u64;
    for want in wanted.split(" / ") {
        if !text.lines().any(|line| line == want) {
            count = count.saturating_add(1);
        }
    }
    count
}

fn missing_in_listing(alloc: Global, lines: &str, wanted: &str) -> Result<u64> {
    let mut case = on_lines(alloc, "list", lines)?;
    Ok(missing(case.run_for_text(alloc)?, wanted))
}

/// Whether the listing of a source has these lines, for the case `LINE / COUNT * LINE / .. -> LINE / LINE ..`. Where it has
/// not, their number stands behind.
pub fn listed(alloc: Global, line: &str) -> Result<String> {
    let (told, wanted) = halves(line, " -> ")?;
    match missing_in_listing(alloc, told, wanted)? {
        0 => Ok(String::from_str(alloc, line)?),
        count => Ok(format!(in alloc; "{line}, without {count}")?),
    }
}
