//! The top call.
ghost use Rattle.std.specs.Prelude.{◌≡◌};

use crate::execution::{Executed, Fault, execute};
use crate::message::{ending_line, refusal_line};
use crate::words::{Asked, asked_by};
use cc_meaning::Ending;
use cc_program::Program;
use cc_reader::Reader;
use cc_rules::LIMIT;
use cmd_answer::{Failure, FileKind, Reply, Status, read_file};
use mx_io::{Shelf, Sink};
use std::alloc::{AllocError, Global};

/// What is said where the words ask for nothing that there is.
const USAGE: &str = "usage: mx_cc meaning FILE.s .. [--input FILE] [--steps N]\n";

/// How the command ended: its exit status, and what goes to standard error.
#[derive(Drop)]
pub struct Ended {
    pub status: u8,
    pub errors: Vec<u8>,
}

/// An end with a text for standard error, if there is memory for it.
fn end_with(alloc: Global, status: Status, text: Result<Vec<u8>, AllocError>) -> Ended {
    match text {
        Ok(errors) => Ended {
            status: status.number(),
            errors,
        },
        Err(_) => Ended {
            status: Status::Memory.number(),
            errors: Vec::new(alloc),
        },
    }
}

/// A text in memory of its own.
fn copied(alloc: Global, text: &str) -> Result<Vec<u8>, AllocError> {
    Vec::from_slice(alloc, text.as_bytes())
}

/// The end of a command whose files are not read.
fn failed(alloc: Global, failure: Failure) -> Ended {
    match failure {
        Failure::Answered(Reply::Prints { status, output }) => end_with(alloc, status, Ok(output)),
        _ => end_with(alloc, Status::Memory, Ok(Vec::new(alloc))),
    }
}

/// The texts of files, or why one is not read.
fn texts_of<S: Shelf>(alloc: Global, shelf: &mut S, names: &[&str]) -> Result<Vec<Vec<u8>>, Failure>
    ensures { S.told shelf.new ≡ S.told shelf.old }
{
    let mut texts = Vec::new(alloc);
    let mut number = 0u32;
    for name in names {
        number = number.saturating_add(1);
        let text = read_file(alloc, shelf, FileKind::Module(number), *name)?;
        if texts.push(text).is_err() {
            return Err(Failure::Memory);
        }
    }
    Ok(texts)
}

/// The input: that of a file, or nothing.
fn input_of<S: Shelf>(alloc: Global, shelf: &mut S, name: Option<&str>) -> Result<Vec<u8>, Failure>
    ensures { S.told shelf.new ≡ S.told shelf.old }
{
    match name {
        Some(name) => read_file(alloc, shelf, FileKind::Input, name),
        None => Ok(Vec::new(alloc)),
    }
}

/// The texts as slices.
fn slices_of(alloc: Global, texts: &[Vec<u8>]) -> Result<Vec<&[u8]>, AllocError> {
    let mut slices = Vec::new(alloc);
    for text in texts {
        slices.push(text.as_slice())?;
    }
    Ok(slices)
}

/// The exit status of a run: the program's own, where it ends by itself.
fn status_of(ending: Ending) -> u8 {
    match ending {
        Ending::Halted(status) => status,
        Ending::Running => Status::OutOfBudget.number(),
        Ending::Stuck(_) => Status::Stuck.number(),
    }
}

/// The end of a run.
fn run_ended(alloc: Global, names: &[&str], program: &Program<'_>, executed: Executed) -> Ended {
    match ending_line(alloc, names, program, executed) {
        Ok(errors) => Ended {
            status: status_of(executed.ending),
            errors,
        },
        Err(error) => end_with(alloc, Status::Memory, Err(error)),
    }
}

/// Executes a program, and puts out its console.
fn program_ended<W: Sink>(
    alloc: Global,
    asked: &Asked<'_>,
    program: &Program<'_>,
    first: (u32, u64),
    input: &[u8],
    out: &mut W,
) -> Ended {
    let (symbol, end) = first;
    let Ok(end) = u32::try_from(end.min(u64::from(LIMIT))) else {
        return end_with(alloc, Status::Refused, Ok(Vec::new(alloc)));
    };
    match execute(alloc, program, end, symbol, input, asked.steps, out) {
        Ok(executed) => run_ended(alloc, &asked.files, program, executed),
        Err(Fault::Memory) => end_with(alloc, Status::Memory, Ok(Vec::new(alloc))),
        Err(Fault::Write) => end_with(alloc, Status::WriteFault, Ok(Vec::new(alloc))),
    }
}

/// Executes the program that texts make together.
fn texts_ended<W: Sink>(
    alloc: Global,
    asked: &Asked<'_>,
    texts: &[Vec<u8>],
    input: &[u8],
    out: &mut W,
) -> Result<Ended, AllocError> {
    let slices = slices_of(alloc, texts)?;
    let mut reader = Reader::new(alloc)?;
    Ok(match reader.read_all(&slices) {
        Ok(first) => program_ended(alloc, asked, &reader.program, first, input, out),
        Err(error) => end_with(
            alloc,
            Status::Refused,
            refusal_line(alloc, &asked.files, &error),
        ),
    })
}

/// Executes what is asked for.
fn asked_ended<S: Shelf, W: Sink>(
    alloc: Global,
    asked: &Asked<'_>,
    shelf: &mut S,
    out: &mut W,
) -> Result<Ended, Failure>
    ensures { S.told shelf.new ≡ S.told shelf.old }
{
    let texts = texts_of(alloc, shelf, &asked.files)?;
    let input = input_of(alloc, shelf, asked.input)?;
    Ok(texts_ended(alloc, asked, &texts, &input, out)?)
}

/// Executes the program of the files that the words name, those after `meaning`, and puts out its console. Its exit status is
/// that of the program, where that ends by itself; else it is one of `Status`, and a line for standard error says why. No file is
/// written.
pub fn execute_files<S: Shelf, W: Sink>(
    alloc: Global,
    words: &[String],
    shelf: &mut S,
    out: &mut W,
) -> Ended
    ensures unwritten { S.told shelf.new ≡ S.told shelf.old }
{
    match asked_by(alloc, words) {
        Ok(Some(asked)) => match asked_ended(alloc, &asked, shelf, out) {
            Ok(ended) => ended,
            Err(failure) => failed(alloc, failure),
        },
        Ok(None) => end_with(alloc, Status::Usage, copied(alloc, USAGE)),
        Err(error) => end_with(alloc, Status::Memory, Err(error)),
    }
}
