//! The files that a run reads besides its program.
ghost use Rattle.std.specs.Prelude.{◌≡◌, ◌≢◌, ◌≤◌, ◌++◌, codes, length, IfOk, IfErr, List, ℕ, Ok, Err, None, Some, option_map};
ghost use Rattle.std.specs.Fmt.{decimal};
ghost use Rattle.mx_io.specs.declared.limits.TheConstants.{MAX_FILE_BYTES};
ghost use Rattle.mx_board.specs.declared.EventError.{EventError};
ghost use Rattle.mx_board.specs.RequestFile.{requests_of};
ghost use Rattle.cmd_answer.specs.declared.Status.TheVariants.{BadEvents};
ghost use Rattle.cmd_answer.specs.Answer.{Answer, prints};
ghost use Rattle.mx_io.specs.Shelves.{Told, Counts};
ghost use Rattle.cmd_answer.specs.Protocol.{Protocol, Performed};
ghost use Rattle.cmd_answer.specs.Readings.{Gives, Refuses};
ghost use Rattle.cmd_answer.specs.Replies.{reply_answer, IfAnswered};
ghost use Rattle.cmd_options.specs.Options.{seen_files};
ghost use Rattle.cmd_simulate.specs.Machines.{event_text, event_line, requests_protocol, input_protocol, files_protocol};

use cmd_answer::{Failure, FileKind, Reply, Status, line_reply, read_file};
use cmd_options::RunFiles;
use mx_board::{EventError, Requests};
use mx_io::{Memory, Shelf};
use std::alloc::Global;

/// What the files of a run hold.
#[derive(Drop)]
pub struct RunInputs {
    pub requests: Requests,
    pub input: Vec<u8>,
}

// The line of a faulty interrupt file.
fn event_reply(alloc: Global, line: u32, cause: &str) -> Result<Reply, Memory>
    ensures { IfOk result (λ r. reply_answer r ≡ prints BadEvents (event_text line cause.now)) }
{
    let Ok(text) = format!(in alloc; "interrupts line {line}: {cause}") else {
        return Err(Memory);
    };
    let reply = line_reply(alloc, Status::BadEvents, text.as_str())?;
    Ok(reply)
}

// The reply to a fault of an interrupt file.
fn fault_reply(alloc: Global, fault: &EventError) -> Result<Reply, Memory>
    ensures { IfOk result (λ r. (fault.now ≢ EventError.Memory) × (reply_answer r ≡ prints BadEvents (event_line fault.now))) }
{
    match *fault {
        EventError::BadLine { line } => event_reply(alloc, line, "BadLine"),
        EventError::TooMany { line } => event_reply(alloc, line, "TooMany"),
        EventError::NotAscending { line } => event_reply(alloc, line, "NotAscending"),
        EventError::Memory => Err(Memory),
    }
}

// The requests of a file's bytes, or the reply to its first faulty line.
fn parse_requests(alloc: Global, bytes: &[u8]) -> Result<Requests, Failure>
    requires { length bytes.now ≤ MAX_FILE_BYTES }
    ensures given { IfOk result (λ requests. requests_of bytes.now ≡ Ok requests) }
    ensures refused { IfAnswered result
        (λ answer. (fault : EventError) × (requests_of bytes.now ≡ Err fault) × (answer ≡ prints BadEvents (event_line fault))) }
{
    match Requests::parse(alloc, bytes) {
        Ok(requests) => Ok(requests),
        Err(fault) => Err(Failure::Answered(fault_reply(alloc, &fault)?)),
    }
}

/// The requests of the file of this name, no requests where none is named, or the reply to a fault.
pub fn read_requests<S: Shelf>(
    alloc: Global,
    shelf: &mut S,
    name: Option<&str>,
) -> Result<Requests, Failure>
    ensures given { IfOk result (λ requests. Gives (requests_protocol (option_map (λ s. s.now) name.entry))
        (S.told shelf.old) (S.counts shelf.old) (S.counts shelf.new) requests) }
    ensures refused { IfAnswered result (Refuses (requests_protocol (option_map (λ s. s.now) name.entry))
        (S.told shelf.old) (S.counts shelf.old) (S.counts shelf.new)) }
    ensures told_stays { S.told shelf.new ≡ S.told shelf.old }
    ensures writes_stay { S.write_faults shelf.new ≡ S.write_faults shelf.old }
{
    let Some(name) = name else {
        return Ok(Requests::none(alloc));
    };
    let bytes = read_file(alloc, shelf, FileKind::Interrupts, name)?;
    let requests = parse_requests(alloc, bytes.as_slice())?;
    Ok(requests)
}

/// The bytes of the input of this name, no bytes where none is named, or the reply to a fault.
pub fn read_input<S: Shelf>(
    alloc: Global,
    shelf: &mut S,
    name: Option<&str>,
) -> Result<Vec<u8>, Failure>
    ensures within { IfOk result (λ bytes. length bytes.items ≤ MAX_FILE_BYTES) }
    ensures given { IfOk result (λ bytes. Gives (input_protocol (option_map (λ s. s.now) name.entry))
        (S.told shelf.old) (S.counts shelf.old) (S.counts shelf.new) bytes.items) }
    ensures refused { IfAnswered result (Refuses (input_protocol (option_map (λ s. s.now) name.entry))
        (S.told shelf.old) (S.counts shelf.old) (S.counts shelf.new)) }
    ensures told_stays { S.told shelf.new ≡ S.told shelf.old }
    ensures writes_stay { S.write_faults shelf.new ≡ S.write_faults shelf.old }
{
    match name {
        Some(name) => {
            let bytes = read_file(alloc, shelf, FileKind::Input, name)?;
            Ok(bytes)
        }
        None => Ok(Vec::new(alloc)),
    }
}

/// What the files of a run hold, which are read in their order, or the reply to the first fault.
pub fn read_run_files<S: Shelf>(
    alloc: Global,
    shelf: &mut S,
    files: &RunFiles,
) -> Result<RunInputs, Failure>
    ensures within { IfOk result (λ inputs. length inputs.input.items ≤ MAX_FILE_BYTES) }
    ensures given { IfOk result (λ inputs. (next : List ℕ → List ℕ → Protocol) (after : Counts) (answer : Answer)
        → Performed (S.told shelf.old) (next inputs.requests inputs.input.items)
        (S.counts shelf.new) after answer
        → Performed (S.told shelf.old) (files_protocol (seen_files files.now) next)
        (S.counts shelf.old) after answer) }
    ensures refused { IfAnswered result (λ answer. (next : List ℕ → List ℕ → Protocol)
        → Performed (S.told shelf.old) (files_protocol (seen_files files.now) next)
        (S.counts shelf.old) (S.counts shelf.new) answer) }
    ensures told_stays { S.told shelf.new ≡ S.told shelf.old }
    ensures writes_stay { S.write_faults shelf.new ≡ S.write_faults shelf.old }
{
    let requests = read_requests(alloc, shelf, files.interrupts)?;
    let input = read_input(alloc, shelf, files.input)?;
    Ok(RunInputs { requests, input })
}
