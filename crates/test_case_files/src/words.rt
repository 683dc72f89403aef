//! The parts of a line.
use anyhow::{Context, Result};
use std::alloc::Global;

/// What stands before and behind the first separator of a line.
pub fn halves<'a>(line: &'a str, separator: &str) -> Result<(&'a str, &'a str)> {
    line.split_once(separator).context("no separator")
}

/// What stands before the first separator of a line.
pub fn before<'a>(line: &'a str, separator: &str) -> Result<&'a str> {
    let (front, _) = halves(line, separator)?;
    Ok(front)
}

/// What stands behind the first separator of a line.
pub fn behind<'a>(line: &'a str, separator: &str) -> Result<&'a str> {
    let (_, back) = halves(line, separator)?;
    Ok(back)
}

/// The number that a text is.
pub fn number(text: &str) -> Result<u32> {
    let number = text.parse::<u32>()?;
    Ok(number)
}

/// A case, with the answer that is found here behind an arrow.
pub fn answered(alloc: Global, case: &str, answer: &str) -> Result<String> {
    Ok(format!(in alloc; "{case} -> {answer}")?)
}
