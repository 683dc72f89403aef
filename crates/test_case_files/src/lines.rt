//! Texts that are told on one line.
use crate::words::number;
use anyhow::Result;
use std::alloc::Global;

/// A line, and how often it stands: it is told as `LINE` or `COUNT * LINE`.
fn counted(part: &str) -> Result<(u32, &str)> {
    match part.split_once(" * ") {
        Some((count, line)) => Ok((number(count)?, line)),
        None => Ok((1, part)),
    }
}

/// The text that is told as `LINE / COUNT * LINE / ..`.
pub fn text_of_lines(alloc: Global, told: &str) -> Result<Vec<u8>> {
    let mut text = Vec::new(alloc);
    for part in told.split(" / ") {
        let (count, line) = counted(part)?;
        for _ in 0..count {
            text.extend_from_slice(line.as_bytes())?;
            text.push(b'\n')?;
        }
    }
    Ok(text)
}
