//! Cases of image files.
use crate::case::{Case, bytes_of};
use anyhow::Result;
use mx_command::Status;
use std::alloc::Global;
use test_case_files::{answered, before, number};

/// How the run of an image file within few cycles ends, and the first line that it prints.
fn exec(alloc: Global, bytes: Vec<u8>) -> Result<String> {
    let mut case = Case::new(alloc, "exec image --budget 100")?;
    case.add(alloc, "image", bytes)?;
    case.beginning(alloc)
}

/// How `exec` ends on the bytes that a text spells in hexadecimal, for the case `HEX -> STATUS LINE`.
pub fn image(alloc: Global, line: &str) -> Result<String> {
    let text = before(line, " -> ")?;
    let answer = exec(alloc, bytes_of(alloc, text)?)?;
    answered(alloc, text, answer.as_str())
}

/// A command refuses the front of an image file as one that is cut there, and it stays.
fn refuses(alloc: Global, words: &str, front: &[u8]) -> Result<bool> {
    let mut case = Case::new(alloc, words)?;
    case.add(alloc, "front", Vec::from_slice(alloc, front)?)?;
    let status = case.run(alloc);
    let is_refused = status == Status::BadImage && is_truncated(alloc, &case, front.len())?;
    Ok(is_refused && case.keeps_files(alloc)?)
}

/// A command printed that the image file is cut behind so many bytes.
fn is_truncated(alloc: Global, case: &Case, length: usize) -> Result<bool> {
    let wanted = format!(in alloc; "image: Truncated at {length}\n")?;
    Ok(case.printed() == wanted.as_bytes())
}

/// `exec` and `migrate` onto itself refuse the front of an image file.
fn is_refused(alloc: Global, front: &[u8]) -> Result<bool> {
    Ok(refuses(alloc, "exec front", front)? && refuses(alloc, "migrate front front", front)?)
}

fn refused_fronts(alloc: Global, bytes: &[u8]) -> Result<u64> {
    let mut count = 0u64;
    for length in 0..bytes.len() {
        if is_refused(alloc, &bytes[..length])? {
            count = count.saturating_add(1);
        }
    }
    Ok(count)
}

fn refused_fronts_of_stored(rt: &HostRuntime, name: &str) -> Result<u64> {
    let case = Case::stored(rt, name)?;
    refused_fronts(rt.alloc(), case.file(0)?)
}

/// How many fronts of a stored image file are refused, for the case `NAME COUNT`.
pub fn fronts(rt: &HostRuntime, line: &str) -> Result<String> {
    let name = before(line, " ")?;
    let count = refused_fronts_of_stored(rt, name)?;
    Ok(format!(in rt.alloc(); "{name} {count}")?)
}

/// So many bytes that look like any.
fn noise(alloc: Global, count: u32) -> Result<Vec<u8>> {
    let mut bytes = Vec::with_capacity(alloc, count as usize)?;
    let mut seed = 1u32;
    for _ in 0..count {
        seed = seed.wrapping_mul(1_664_525).wrapping_add(1_013_904_223);
        let [top, _, _, _] = seed.to_be_bytes();
        bytes.push(top)?;
    }
    Ok(bytes)
}

/// How `exec` ends on so many bytes of no image, for the case `COUNT -> STATUS LINE`.
pub fn long(alloc: Global, line: &str) -> Result<String> {
    let count = before(line, " -> ")?;
    let answer = exec(alloc, noise(alloc, number(count)?)?)?;
    answered(alloc, count, answer.as_str())
}
