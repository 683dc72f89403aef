//! The top call.
use crate::blocks::blocks_reply;
use crate::certificates::{certify_reply, verify_reply};
use crate::check::check_reply;
use crate::compare::compare_reply;
use crate::disassemble::disassemble_reply;
use crate::plans::plans_reply;
use crate::refusal::refusal_text;
use clap::error::ErrorKind;
use clap::{ArgMatches, Error};
use cmd_answer::{Reply, Status};
use lab_failure::{Causes, LabFailure, failure_text, unwritten_text};
use lab_line::{CommandLine, command_line, parse_words, usage_text};
use lab_options::LabCommand;
use lab_output::{Delivery, Destination, ExitReport, failed, put_out};
use lab_runs::{
    caches_reply, debug_reply, draw_reply, explain_reply, interrupts_reply, profile_reply,
    trace_reply,
};
use lab_sources::build_reply;
use lab_watch::Watcher;
use mx_io::{Memory, Shelf, Sink};
use std::alloc::{AllocError, Global};

// The reply of a command, and in `notes` what standard error gets beside it. Another command is added here, and in the table of
// commands (`lab_line`).
fn reply_to<'w, S: Shelf, W: Watcher>(
    alloc: Global,
    command: &LabCommand<'_, 'w>,
    shelf: &mut S,
    watcher: W,
    notes: &mut Vec<u8>,
) -> Result<Reply, LabFailure<'w>> {
    match command {
        LabCommand::Blocks(options) => blocks_reply(alloc, options, shelf, watcher),
        LabCommand::Build(options) => build_reply(alloc, options, shelf, notes),
        LabCommand::Caches(options) => caches_reply(alloc, options, shelf, watcher, notes),
        LabCommand::Certify(source) => certify_reply(alloc, *source, shelf),
        LabCommand::Check(options) => check_reply(alloc, options, shelf),
        LabCommand::Compare(options) => compare_reply(alloc, options, shelf, watcher),
        LabCommand::Debug(options) => debug_reply(alloc, options, shelf, notes),
        LabCommand::Disassemble(options) => disassemble_reply(alloc, options, shelf),
        LabCommand::Draw(options) => draw_reply(alloc, options, shelf, watcher, notes),
        LabCommand::Explain(options) => explain_reply(alloc, options, shelf, watcher, notes),
        LabCommand::Interrupts(options) => interrupts_reply(alloc, options, shelf, watcher, notes),
        LabCommand::Plans(options) => plans_reply(alloc, options, shelf, watcher),
        LabCommand::Profile(options) => profile_reply(alloc, options, shelf, watcher, notes),
        LabCommand::Trace(options) => trace_reply(alloc, options, shelf, watcher, notes),
        LabCommand::Verify(options) => verify_reply(alloc, options, shelf),
    }
}

// What standard error gets.
fn for_errors<'w>(
    status: Status,
    bytes: Result<Vec<u8>, AllocError>,
) -> Result<Delivery<'w>, Memory> {
    match bytes {
        Ok(bytes) => Ok(Delivery {
            status,
            bytes,
            to: Destination::Errors,
        }),
        Err(_) => Err(Memory),
    }
}

// What `check` prints of the source that a failure names, if that is refused and can be read once more.
fn refusal<S: Shelf, C: Causes>(
    alloc: Global,
    failure: LabFailure,
    shelf: &mut S,
    causes: C,
) -> Result<Option<Vec<u8>>, Memory> {
    match failure {
        LabFailure::Source { name, .. }
        | LabFailure::Overlong { name, .. }
        | LabFailure::NoLabel { name, .. } => refusal_text(alloc, shelf, name, causes),
        _ => Ok(None),
    }
}

// What standard error gets by a failure.
fn failed_delivery<'w, S: Shelf, C: Causes>(
    alloc: Global,
    failure: LabFailure<'w>,
    shelf: &mut S,
    causes: C,
) -> Result<Delivery<'w>, Memory> {
    match refusal(alloc, failure, shelf, causes)? {
        Some(text) => for_errors(failure.status(), Ok(text)),
        None => for_errors(failure.status(), failure_text(alloc, failure, causes)),
    }
}

// Where output goes: to the file that is named, if one is; `-` is standard output. An image is written to the file of its name.
fn destination<'w>(line: &CommandLine<'_, 'w>) -> Destination<'w> {
    match (line.command, line.output) {
        (LabCommand::Build(options), _) => Destination::File(options.image),
        (_, None | Some("-")) => Destination::Output,
        (_, Some(name)) => Destination::File(name),
    }
}

// What is delivered of a reply.
fn delivery_of<'w>(reply: Reply, to: Destination<'w>) -> Delivery<'w> {
    match reply {
        Reply::Prints { status, output } => Delivery {
            status,
            bytes: output,
            to,
        },
        Reply::Writes { bytes, .. } => Delivery {
            status: Status::Done,
            bytes,
            to,
        },
    }
}

// What is delivered of a command.
fn command_delivery<'w, S: Shelf, T: Watcher, C: Causes>(
    alloc: Global,
    line: &CommandLine<'_, 'w>,
    shelf: &mut S,
    watcher: T,
    causes: C,
    notes: &mut Vec<u8>,
) -> Result<Delivery<'w>, Memory> {
    match reply_to(alloc, &line.command, shelf, watcher, notes) {
        Ok(reply) => Ok(delivery_of(reply, destination(line))),
        Err(LabFailure::Memory) => Err(Memory),
        Err(failure) => failed_delivery(alloc, failure, shelf, causes),
    }
}

// The text of clap: help, the version, or help for standard error.
fn clap_delivery<'w>(
    alloc: Global,
    status: Status,
    error: &Error,
    to: Destination<'w>,
) -> Result<Delivery<'w>, Memory> {
    match format!(in alloc; "{error}") {
        Ok(text) => Ok(Delivery {
            status,
            bytes: text.into_bytes(),
            to,
        }),
        Err(_) => Err(Memory),
    }
}

// What standard error gets where the arguments are refused.
fn usage_delivery<'w, C: Causes>(
    alloc: Global,
    words: &[String],
    causes: C,
) -> Result<Delivery<'w>, Memory> {
    for_errors(Status::Usage, usage_text(alloc, causes.caller(), words))
}

// What is delivered where the arguments ask for no command: help or the version, or what is wrong with them.
fn words_delivery<'w, C: Causes>(
    alloc: Global,
    words: &[String],
    error: &Error,
    causes: C,
) -> Result<Delivery<'w>, Memory> {
    match error.kind() {
        ErrorKind::OutOfMemory => Err(Memory),
        ErrorKind::DisplayHelp | ErrorKind::DisplayVersion => {
            clap_delivery(alloc, Status::Done, error, Destination::Output)
        }
        _ if words.is_empty() => clap_delivery(alloc, Status::Usage, error, Destination::Errors),
        _ => usage_delivery(alloc, words, causes),
    }
}

// What is delivered by matches.
fn matched_delivery<'m, 'w, S: Shelf, T: Watcher, C: Causes>(
    alloc: Global,
    words: &[String],
    matches: &'m ArgMatches<'w>,
    shelf: &mut S,
    watcher: T,
    causes: C,
    notes: &mut Vec<u8>,
) -> Result<Delivery<'w>, Memory> {
    match command_line(matches) {
        Some(Ok(line)) => command_delivery(alloc, &line, shelf, watcher, causes, notes),
        Some(Err(fault)) => { failed_delivery(alloc, LabFailure::Arguments(fault), shelf, causes) }
        None => usage_delivery(alloc, words, causes),
    }
}

// What is delivered by the arguments.
fn delivery<'w, S: Shelf, T: Watcher, C: Causes>(
    alloc: Global,
    words: &'w [String],
    shelf: &mut S,
    watcher: T,
    causes: C,
    notes: &mut Vec<u8>,
) -> Result<Delivery<'w>, Memory> {
    match parse_words(alloc, words) {
        Ok(matches) => matched_delivery(alloc, words, &matches, shelf, watcher, causes, notes),
        Err(error) => words_delivery(alloc, words, &error, causes),
    }
}

// How a command ended, where what it delivered went there: what could not be written is named.
fn named_end(alloc: Global, end: ExitReport, to: Destination) -> ExitReport {
    if end.status != Status::WriteFault {
        return end;
    }
    let name = match to {
        Destination::File(name) => Some(name),
        Destination::Output | Destination::Errors => None,
    };
    match unwritten_text(alloc, name) {
        Ok(errors) => ExitReport {
            status: Status::WriteFault,
            errors,
        },
        Err(_) => end,
    }
}

// Puts out what is delivered.
fn end_of<S: Shelf, W: Sink>(
    alloc: Global,
    delivery: Delivery,
    shelf: &mut S,
    out: &mut W,
) -> ExitReport {
    let to = delivery.to;
    named_end(alloc, put_out(alloc, delivery, shelf, out), to)
}

// How a command ended, with notes for standard error, where it gets nothing else.
fn noted(end: ExitReport, notes: Vec<u8>) -> ExitReport {
    if end.errors.is_empty() {
        ExitReport {
            status: end.status,
            errors: notes,
        }
    } else {
        end
    }
}

/// Runs the command that the arguments, those after the program's name, ask for. It reads files from the shelf, tells the
/// watcher how far a run has come, and puts all that it prints into the sink, or writes it to the file that `-o` names.
/// It answers how it ended and what goes to standard error: beside an output that is a line for each plan of a file that is
/// rejected, and else why nothing was put out. Who is asked why a file cannot be read are the causes.
pub fn lab<S: Shelf, W: Sink, T: Watcher, C: Causes>(
    alloc: Global,
    words: &[String],
    shelf: &mut S,
    out: &mut W,
    watcher: T,
    causes: C,
) -> ExitReport {
    let mut notes = Vec::new(alloc);
    let delivered = delivery(alloc, words, shelf, watcher, causes, &mut notes);
    watcher.done();
    match delivered {
        Ok(delivery) => noted(end_of(alloc, delivery, shelf, out), notes),
        Err(_) => failed(
            alloc,
            Status::Memory,
            "zanderanvil: error: ",
            "out of memory",
        ),
    }
}
