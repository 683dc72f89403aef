//! The answer to a request.
ghost use Rattle.std.specs.Prelude.{◌≡◌, IfOk};
ghost use Rattle.std.specs.Result.{result_ok};
ghost use Rattle.serde_json.specs.Data.{Data};
ghost use Rattle.serde_json.specs.View.{view};
ghost use Rattle.lab_request.specs.Answers.{Reads, Refuses, Comes, Ran, not_json, refusal_of};

use crate::document::document;
use crate::files::files_of;
use crate::first::{first_unknown, first_wrong};
use crate::refusal::{refuse_body, refuse_key, refuse_wrong};
use crate::words::words_of;
use crate::{Commands, WorkbenchCommand};
use mx_io::Memory;
use serde_json::Value;
use std::alloc::{AllocError, Global};

/// The bytes of an answer.
#[derive(Drop)]
pub struct Response {
    /// Whether they tell what is wrong with the request, and no command ran.
    pub is_refused: bool,
    pub document: Vec<u8>,
}

// The command that is asked for, and the value that its body is.
#[derive(Clone, Copy)]
struct Request<'a> {
    command: WorkbenchCommand,
    value: &'a Value,
}

// The answer to a body with which nothing is wrong.
fn answer_request<C: Commands>(
    alloc: Global,
    commands: &C,
    asked: Request,
) -> Result<Response, Memory>
    ensures { IfOk result (Ran C.ends asked.entry.command (view asked.entry.value.now)) }
{
    let Request { command, value } = asked;
    let Ok(words) = words_of(alloc, command, value) else {
        return Err(Memory);
    };
    let files = files_of(alloc, value)?;
    let ended = commands.run(alloc, command, words.as_slice(), files)?;
    match document(alloc, command, &ended) {
        Ok(document) => Ok(Response {
            is_refused: false,
            document,
        }),
        Err(_) => Err(Memory),
    }
}

// An answer, or that memory ran out.
fn or_memory(answer: Result<Response, AllocError>) -> Result<Response, Memory>
    ensures { result_ok result ≡ result_ok answer }
{
    match answer {
        Ok(answer) => Ok(answer),
        Err(_) => Err(Memory),
    }
}

// The answer to a value.
fn answer_value<C: Commands>(
    alloc: Global,
    commands: &C,
    asked: Request,
) -> Result<Response, Memory>
    ensures { IfOk result (Comes C.ends asked.entry.command (view asked.entry.value.now) (refusal_of asked.entry.command (view asked.entry.value.now))) }
{
    let Request { command, value } = asked;
    let Some(members) = value.as_object() else {
        return or_memory(refuse_body(alloc, "no JSON object"));
    };
    if let Some(key) = first_unknown(command.fields(), members) {
        return or_memory(refuse_key(alloc, command, key));
    }
    match first_wrong(command.fields(), value) {
        Some(wrong) => or_memory(refuse_wrong(alloc, wrong)),
        None => answer_request(alloc, commands, asked),
    }
}

/// The answer to the request that a body is: a refusal, or how its command ended over its files. It fails only where memory
/// runs out.
pub fn answer_body<C: Commands>(
    alloc: Global,
    commands: &C,
    command: WorkbenchCommand,
    body: &[u8],
) -> Result<Response, Memory>
    ensures not_json { IfOk result (λ a. ((d : Data) → ¬ Reads body.now d) → Refuses not_json a) }
    ensures comes { IfOk result (λ a. (d : Data) → Reads body.now d → Comes C.ends command d (refusal_of command d) a) }
{
    match Value::from_slice(alloc, body) {
        Ok(value) => {
            let asked = Request {
                command,
                value: &value,
            };
            answer_value(alloc, commands, asked)
        }
        Err(error) if error.is_memory() => Err(Memory),
        Err(_) => or_memory(refuse_body(alloc, "no JSON")),
    }
}
