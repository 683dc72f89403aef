//! Commands over files in memory.
use anyhow::Result;
use lab_command::{Status, Unknown, lab};
use lab_watch::Unwatched;
use mx_io::{MemoryShelf, MemorySink};
use std::alloc::Global;
use test_case_files::{stored_shelf, words_of};

/// The most bytes that a case prints.
const ROOM: usize = 1_048_576;

/// How many bytes the sink takes at most in one put.
const PIECE: usize = 4096;

/// What is between two commands.
const BETWEEN: &str = " ; ";

/// How a command ended, what it printed, and what went to standard error.
#[derive(Drop)]
pub struct Ended {
    status: u8,
    output: MemorySink,
    errors: Vec<u8>,
}

impl Ended {
    /// The status, with a `!` behind it where all that was said went to standard error, and `?` where some of it did.
    pub fn told(&self, alloc: Global) -> Result<String> {
        let status = self.status;
        let mark = match (self.errors.is_empty(), self.output.written().is_empty()) {
            (true, _) => "",
            (false, true) => "!",
            (false, false) => "?",
        };
        Ok(format!(in alloc; "{status}{mark}")?)
    }

    /// What was printed, as a text.
    pub fn text(&self) -> Result<&str> {
        let text = str::from_utf8(self.output.written())?;
        Ok(text)
    }

    /// What was said: what was printed, and what went to standard error behind it.
    pub fn said(&self, alloc: Global) -> Result<Vec<u8>> {
        let mut said = Vec::new(alloc);
        said.extend_from_slice(self.output.written())?;
        said.extend_from_slice(self.errors.as_slice())?;
        Ok(said)
    }
}

// The stored files that the words of a line name, also behind a `=`.
fn named_shelf(rt: &HostRuntime, line: &str) -> Result<MemoryShelf> {
    let names = line.replace(rt.alloc(), "=", " ")?;
    stored_shelf(rt, &names)
}

/// Runs the command that the words of a line ask for, over the stored files that they name.
pub fn run(rt: &HostRuntime, line: &str) -> Result<Ended> {
    let mut shelf = named_shelf(rt, line)?;
    run_over(rt.alloc(), line, &mut shelf)
}

/// The same, where a file of this name holds these bytes.
pub fn run_with(rt: &HostRuntime, line: &str, name: &str, bytes: &[u8]) -> Result<Ended> {
    let mut shelf = named_shelf(rt, line)?;
    shelf.add(name, bytes)?;
    run_over(rt.alloc(), line, &mut shelf)
}

// Runs the commands of a line, one after the other, over a shelf: the next one where the one before it is done.
fn run_over(alloc: Global, line: &str, shelf: &mut MemoryShelf) -> Result<Ended> {
    let mut output = MemorySink::new(alloc, PIECE, ROOM)?;
    let mut errors = Vec::new(alloc);
    let mut status = Status::Done;
    for command in line.split(BETWEEN) {
        if status == Status::Done {
            status = run_one(alloc, command, shelf, &mut output, &mut errors)?;
        }
    }
    Ok(Ended {
        status: status.number(),
        output,
        errors,
    })
}

// Runs a command over a shelf, and adds what goes to standard error.
fn run_one(
    alloc: Global,
    line: &str,
    shelf: &mut MemoryShelf,
    output: &mut MemorySink,
    errors: &mut Vec<u8>,
) -> Result<Status> {
    let words = words_of(alloc, line)?;
    let ended = lab(alloc, words.as_slice(), shelf, output, Unwatched, Unknown);
    errors.extend_from_slice(ended.errors.as_slice())?;
    Ok(ended.status)
}
