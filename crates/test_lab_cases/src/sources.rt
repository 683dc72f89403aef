//! Cases of sources that are told by their lines, and how often each stands.
use crate::case::{Ended, run_with};
use anyhow::Result;
use std::alloc::Global;
use test_case_files::{answered, before, halves, text_of_lines};

/// The file that holds the source.
const SOURCE: &str = "source";

/// What stands between two lines.
const BETWEEN: &str = " / ";

// The lines of a text on one line.
fn on_one_line(alloc: Global, text: &str) -> Result<String> {
    let mut line = String::new(alloc);
    let mut begun = false;
    for part in text.lines() {
        if begun {
            line.push_str(BETWEEN)?;
        }
        line.push_str(part)?;
        begun = true;
    }
    Ok(line)
}

// How a command ended and all that was said, on one line.
fn told_on_one_line(alloc: Global, ended: &Ended) -> Result<String> {
    let status = ended.told(alloc)?;
    let said = ended.said(alloc)?;
    let said = on_one_line(alloc, str::from_utf8(said.as_slice())?)?;
    Ok(format!(in alloc; "{status} {said}")?)
}

// The same of a command on a source with these lines.
fn told_on_lines(rt: &HostRuntime, words: &str, lines: &str) -> Result<String> {
    let alloc = rt.alloc();
    let text = text_of_lines(alloc, lines)?;
    let ended = run_with(rt, words, SOURCE, text.as_slice())?;
    told_on_one_line(alloc, &ended)
}

/// How a command ends and all that is said, for the case `WORDS: LINE / COUNT * LINE / .. -> STATUS SAID`. The words name the
/// file `source`, which has these lines. What is said stands on one line, too.
pub fn told(rt: &HostRuntime, line: &str) -> Result<String> {
    let case = before(line, " -> ")?;
    let (words, lines) = halves(case, ": ")?;
    let told = told_on_lines(rt, words, lines)?;
    answered(rt.alloc(), case, told.as_str())
}
