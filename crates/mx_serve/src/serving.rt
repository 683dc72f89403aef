//! One request, from standard input to standard output.
ghost use Rattle.std.specs.Prelude.{◌≡◌};
ghost use Rattle.mx_serve.specs.Serving.{IsPrinted, IsServed, served_number};

use crate::programs::Programs;
use cmd_answer::Status;
use lab_request::{Response, WorkbenchCommand, answer_body};
use mx_io::{Shelf, ShelfFault, Sink, put_all};
use std::alloc::Global;

/// The name of standard input, as a file.
const STANDARD_INPUT: &str = "/dev/stdin";

/// How many bytes a body has at most.
const MOST_BODY: usize = 4_194_304;

/// How a request was served.
#[derive(Clone, Copy)]
pub enum Served {
    /// Its command was run, and its document was printed.
    Answered,
    /// Something was wrong with it, and that was printed.
    Refused,
    /// Its body cannot be read, or is too long.
    Unread,
    /// Its answer cannot be printed.
    Unprinted,
    /// Memory ran out.
    NoMemory,
}

impl Served {
    /// The exit status of the program.
    pub fn number(self) -> u8
        ensures { result ≡ served_number self }
    {
        match self {
            Served::Answered => Status::Done.number(),
            Served::Refused => Status::Refused.number(),
            Served::Unread => Status::ReadFault.number(),
            Served::Unprinted => Status::WriteFault.number(),
            Served::NoMemory => Status::Memory.number(),
        }
    }
}

// Prints an answer.
fn print<W: Sink>(answer: &Response, out: &mut W) -> Served
    ensures { IsPrinted answer.now (W.written out.old) (W.written out.new) (W.faults out.old) (W.faults out.new) result }
{
    match put_all(out, answer.document.as_slice()) {
        Ok(()) if answer.is_refused => Served::Refused,
        Ok(()) => Served::Answered,
        Err(_) => Served::Unprinted,
    }
}

/// Serves a request of this command: its body is standard input, of the shelf, and its answer goes to the sink.
pub fn serve<S: Shelf, W: Sink>(
    alloc: Global,
    command: WorkbenchCommand,
    shelf: &mut S,
    out: &mut W,
) -> Served
    ensures { IsServed command (S.counts shelf.old).log (S.counts shelf.new).log (W.written out.old) (W.written out.new)
        (W.faults out.old) (W.faults out.new) result }
{
    let body = match shelf.read(alloc, STANDARD_INPUT, MOST_BODY) {
        Ok(body) => body,
        Err(ShelfFault::Memory) => return Served::NoMemory,
        Err(_) => return Served::Unread,
    };
    match answer_body(alloc, &Programs, command, body.as_slice()) {
        Ok(answer) => print(&answer, out),
        Err(_) => Served::NoMemory,
    }
}
