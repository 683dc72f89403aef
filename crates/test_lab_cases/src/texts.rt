//! Cases by the text that a command prints.
use crate::case::run;
use anyhow::Result;
use test_case_files::{behind, halves, wanted, wanted_text};

/// How a command ends, for the case `STATUS NAME: WORDS`. What it prints, or what goes to standard error, is `wanted/NAME`.
pub fn whole(rt: &HostRuntime, line: &str) -> Result<String> {
    let case = behind(line, " ")?;
    let (name, words) = halves(case, ": ")?;
    let (status, note) = outcome(rt, name, words)?;
    Ok(format!(in rt.alloc(); "{status} {case}{note}")?)
}

// How a command ends, and what differs.
fn outcome(rt: &HostRuntime, name: &str, words: &str) -> Result<(String, &'static str)> {
    let ended = run(rt, words)?;
    let said = ended.said(rt.alloc())?;
    let note = note_on(rt, name, said.as_slice())?;
    Ok((ended.told(rt.alloc())?, note))
}

fn note_on(rt: &HostRuntime, name: &str, said: &[u8]) -> Result<&'static str> {
    let wanted = wanted(rt, name)?;
    if said == wanted.as_slice() {
        Ok("")
    } else {
        Ok(", of another output")
    }
}

// How many of these lines do not stand in the text, in this order.
fn missing(text: &str, wanted: &str) -> u64 {
    let mut left = text.lines();
    let mut count = 0u64;
    for want in wanted.lines() {
        if !left.any(|line| line == want) {
            count = count.saturating_add(1);
        }
    }
    count
}

fn missing_of_wanted(rt: &HostRuntime, name: &str, text: &str) -> Result<u64> {
    let wanted = wanted_text(rt, name)?;
    Ok(missing(text, wanted.as_str()))
}

// How many bytes a command prints, and how many of the wanted lines are missing.
fn printed_and_missing(rt: &HostRuntime, name: &str, words: &str) -> Result<(usize, u64)> {
    let ended = run(rt, words)?;
    let text = ended.text()?;
    Ok((text.len(), missing_of_wanted(rt, name, text)?))
}

/// How many bytes a command prints, for the case `BYTES NAME: WORDS`. Each line of `wanted/NAME` is one of its lines, in that
/// order; where some are not, their number stands behind.
pub fn parts(rt: &HostRuntime, line: &str) -> Result<String> {
    let alloc = rt.alloc();
    let case = behind(line, " ")?;
    let (name, words) = halves(case, ": ")?;
    match printed_and_missing(rt, name, words)? {
        (bytes, 0) => Ok(format!(in alloc; "{bytes} {case}")?),
        (bytes, count) => Ok(format!(in alloc; "{bytes} {case}, without {count}")?),
    }
}
