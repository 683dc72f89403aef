//! Cases against what is found here.
use anyhow::{Context, Result};
use std::fs;

/// A kind of cases, those of one file.
pub trait Cases {
    /// The file that has them, one a line.
    fn file(&self) -> &'static str;

    /// The line of a case, with the answer that is found here in place of its own.
    fn answered(&self, rt: &HostRuntime, line: &str) -> Result<String>;
}

/// Compares the cases of each kind.
pub fn compare_all<C: Cases>(rt: &HostRuntime, kinds: &[C]) -> Result<()> {
    for kind in kinds {
        compare(rt, kind)?;
    }
    Ok(())
}

/// Compares each case of a kind with what is found here. Prints a line for each case that differs, and how many agree.
pub fn compare<C: Cases>(rt: &HostRuntime, kind: &C) -> Result<()> {
    let text = fs::read_to_string(rt, kind.file()).context(kind.file())?;
    compare_lines(rt, kind, text.as_str())
}

fn compare_lines<C: Cases>(rt: &HostRuntime, kind: &C, text: &str) -> Result<()> {
    let mut cases = 0u64;
    let mut agree = 0u64;
    for line in text.lines() {
        cases = cases.saturating_add(1);
        agree = agree.saturating_add(u64::from(agrees(rt, kind, line)?));
    }
    println!(rt; "{}: {agree} of {cases} agree", kind.file())?;
    Ok(())
}

/// Whether a case is what is found here. Prints both where it is not.
fn agrees<C: Cases>(rt: &HostRuntime, kind: &C, line: &str) -> Result<bool> {
    let ours = found(rt, kind, line)?;
    is_same(rt, kind.file(), line, ours.as_str())
}

fn found<C: Cases>(rt: &HostRuntime, kind: &C, line: &str) -> Result<String> {
    let file = kind.file();
    kind.answered(rt, line)
        .context(format_args!("{file}: no case: {line}"))
}

fn is_same(rt: &HostRuntime, file: &str, line: &str, ours: &str) -> Result<bool> {
    if ours == line {
        return Ok(true);
    }
    println!(rt; "{file}: given {line}, here {ours}")?;
    Ok(false)
}
