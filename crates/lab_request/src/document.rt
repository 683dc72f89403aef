//! The document of how a command ended.
ghost use Rattle.std.specs.Prelude.{◌≡◌, ◌++◌, codes, decimal, IfOk, OnOk};
ghost use Rattle.lab_request.specs.Fields.{command_name};
ghost use Rattle.lab_request.specs.Documents.{errors_part, are_lines, is_json, output_part, document};

use crate::bytes::{push_list, push_string};
use crate::values::first_byte;
use crate::{CommandEnd, WorkbenchCommand};
use mx_text::push_decimal;
use std::alloc::{AllocError, Global};

// Appends the name of the command and its status.
fn push_front(
    alloc: Global,
    text: &mut Vec<u8>,
    command: WorkbenchCommand,
    status: u8,
) -> Result<(), AllocError>
    ensures { OnOk result (text.new.items ≡ text.old.items ++ codes "{\"command\":\"" ++ command_name command
        ++ codes "\",\"status\":" ++ decimal status ++ codes ",") }
{
    text.extend_from_slice(b"{\"command\":\"")?;
    text.extend_from_slice(command.name().as_bytes())?;
    text.extend_from_slice(b"\",\"status\":")?;
    push_decimal(alloc, text, u64::from(status))?;
    text.extend_from_slice(b",")
}

// Appends what was printed on standard error, if anything.
fn push_errors(text: &mut Vec<u8>, errors: &[u8]) -> Result<(), AllocError>
    ensures { OnOk result (text.new.items ≡ text.old.items ++ errors_part errors.now) }
{
    if errors.is_empty() {
        return Ok(());
    }
    text.extend_from_slice(b"\"errors\":")?;
    push_string(text, errors)?;
    text.extend_from_slice(b",")
}

// Whether an output is a JSON text a line.
fn are_lines(command: WorkbenchCommand, status: u8, output: &[u8]) -> bool
    ensures { result ≡ are_lines command status output.now }
{
    command.is_check() && status < 2 && (output.is_empty() || first_byte(output) == b'{')
}

// Whether an output is JSON.
fn is_json(output: &[u8]) -> bool
    ensures { result ≡ is_json output.now }
{
    matches!(first_byte(output), b'{' | b'[')
}

// Appends what was printed on standard output.
fn push_output(
    text: &mut Vec<u8>,
    command: WorkbenchCommand,
    status: u8,
    output: &[u8],
) -> Result<(), AllocError>
    ensures { OnOk result (text.new.items ≡ text.old.items ++ output_part command status output.now) }
{
    if are_lines(command, status, output) {
        text.extend_from_slice(b"\"output\":")?;
        push_list(text, output)
    } else if is_json(output) {
        text.extend_from_slice(b"\"output\":")?;
        text.extend_from_slice(output)
    } else {
        text.extend_from_slice(b"\"text\":")?;
        push_string(text, output)
    }
}

/// The document of how a command ended.
pub fn document(
    alloc: Global,
    command: WorkbenchCommand,
    ended: &CommandEnd,
) -> Result<Vec<u8>, AllocError>
    ensures { IfOk result (λ v. v.items ≡ document command ended.now.status ended.now.output.items ended.now.errors.items) }
{
    let mut text = Vec::new(alloc);
    push_front(alloc, &mut text, command, ended.status)?;
    push_errors(&mut text, ended.errors.as_slice())?;
    push_output(&mut text, command, ended.status, ended.output.as_slice())?;
    text.extend_from_slice(b"}\n")?;
    Ok(text)
}
