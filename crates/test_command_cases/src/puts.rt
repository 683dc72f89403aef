//! Cases of commands whose output is not taken whole.
use crate::case::Case;
use anyhow::Result;
use mx_command::Status;
use mx_io::MemorySink;
use std::alloc::Global;
use test_case_files::{behind, halves, wanted};

/// How many bytes the sink takes at most in one put.
const PIECE: usize = 16;

/// The most bytes that it takes in all.
const ROOM: usize = 65_536;

/// A sink whose put with this number fails, the first of them as 1.
fn without_put(alloc: Global, put: u64) -> Result<MemorySink> {
    let mut output = MemorySink::new(alloc, PIECE, ROOM)?;
    output.fail_at(put)?;
    Ok(output)
}

/// A command that prints into such a sink.
fn printing_without(rt: &HostRuntime, words: &str, put: u64) -> Result<Case> {
    let mut case = Case::stored(rt, words)?;
    case.print_into(without_put(rt.alloc(), put)?);
    Ok(case)
}

/// The command ends with a write fault, and what went out are so many bytes, the first that are wanted.
fn ends_at(rt: &HostRuntime, words: &str, put: u64, wanted: &[u8], before: usize) -> Result<bool> {
    let mut case = printing_without(rt, words, put)?;
    let status = case.run(rt.alloc());
    let taken = case.printed();
    Ok(status == Status::WriteFault && taken.len() == before && wanted.starts_with(taken))
}

/// The command prints what is wanted.
fn is_whole(rt: &HostRuntime, words: &str, put: u64, wanted: &[u8]) -> Result<bool> {
    let mut case = printing_without(rt, words, put)?;
    case.run(rt.alloc());
    Ok(case.printed() == wanted)
}

/// In how many puts the whole output goes out, or what goes out otherwise.
fn puts_of(rt: &HostRuntime, words: &str, wanted: &[u8]) -> Result<String> {
    let alloc = rt.alloc();
    let mut count = 0u64;
    for before in (0..wanted.len()).step_by(PIECE) {
        count = count.saturating_add(1);
        if !ends_at(rt, words, count, wanted, before)? {
            return Ok(format!(in alloc; "put {count}")?);
        }
    }
    if is_whole(rt, words, count.saturating_add(1), wanted)? {
        Ok(format!(in alloc; "{count}")?)
    } else {
        Ok(String::from_str(alloc, "otherwise")?)
    }
}

fn puts_of_wanted(rt: &HostRuntime, name: &str, words: &str) -> Result<String> {
    let wanted = wanted(rt, name)?;
    puts_of(rt, words, wanted.as_slice())
}

/// In how many puts the whole output goes out, for the case `PUTS NAME: WORDS`: each of them fails in turn, and then the
/// command ends with a write fault, and what went out is all that the puts before it took, so that none came after it.
pub fn puts(rt: &HostRuntime, line: &str) -> Result<String> {
    let (front, words) = halves(line, ": ")?;
    let name = behind(front, " ")?;
    let answer = puts_of_wanted(rt, name, words)?;
    Ok(format!(in rt.alloc(); "{answer} {name}: {words}")?)
}
