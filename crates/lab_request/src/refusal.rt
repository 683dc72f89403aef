//! The documents of refusals.
ghost use Rattle.std.specs.Prelude.{◌≡◌, ◌++◌, take, IfOk, OnOk, option_map};
ghost use Rattle.lab_request.specs.Documents.{field_part, refusal_document};
ghost use Rattle.lab_request.specs.Answers.{range_words, Refuses, of_body, of_field, unknown_refusal, wrong_refusal};

use crate::bytes::push_string;
use crate::{Fault, Response, WorkbenchCommand, Wrong};
use mx_text::push_decimal;
use std::alloc::{AllocError, Global};

/// How many bytes of a key are told.
const MOST_KEY: usize = 80;

// Appends the range of a number that is out of it.
fn push_range(alloc: Global, text: &mut Vec<u8>, fault: Fault) -> Result<(), AllocError>
    ensures { OnOk result (text.new.items ≡ text.old.items ++ range_words fault) }
{
    let Fault::NoNumber { least, most } = fault else {
        return Ok(());
    };
    text.extend_from_slice(b" from ")?;
    push_decimal(alloc, text, least)?;
    text.extend_from_slice(b" to ")?;
    push_decimal(alloc, text, most)
}

// Appends the field that is wrong.
fn push_field(text: &mut Vec<u8>, field: Option<&[u8]>) -> Result<(), AllocError>
    ensures { OnOk result (text.new.items ≡ text.old.items ++ field_part (option_map (λ f. f.now) field.entry)) }
{
    let Some(field) = field else {
        return Ok(());
    };
    text.extend_from_slice(b",\"field\":")?;
    push_string(text, field)
}

// The document of a refusal.
fn refusal_document(
    alloc: Global,
    error: &[u8],
    field: Option<&[u8]>,
) -> Result<Vec<u8>, AllocError>
    ensures { IfOk result (λ v. v.items ≡ refusal_document error.now (option_map (λ f. f.now) field.entry)) }
{
    let mut text = Vec::new(alloc);
    text.extend_from_slice(b"{\"error\":")?;
    push_string(&mut text, error)?;
    push_field(&mut text, field)?;
    text.extend_from_slice(b"}\n")?;
    Ok(text)
}

/// The refusal of a body.
pub fn refuse_body(alloc: Global, why: &str) -> Result<Response, AllocError>
    ensures { IfOk result (Refuses (of_body why.now)) }
{
    let document = refusal_document(alloc, why.as_bytes(), None)?;
    Ok(Response {
        is_refused: true,
        document,
    })
}

// The refusal of a field.
fn refuse_field(alloc: Global, field: &[u8], why: &[u8]) -> Result<Response, AllocError>
    ensures { IfOk result (Refuses (of_field field.now why.now)) }
{
    let mut error = Vec::from_slice(alloc, field)?;
    error.extend_from_slice(b": ")?;
    error.extend_from_slice(why)?;
    let document = refusal_document(alloc, error.as_slice(), Some(field))?;
    Ok(Response {
        is_refused: true,
        document,
    })
}

// The first bytes, as many as there are up to a number.
fn first_bytes(bytes: &[u8], most: usize) -> &[u8]
    ensures { result.now ≡ take most bytes.entry.now }
{
    if bytes.len() <= most {
        bytes
    } else {
        &bytes[..most]
    }
}

/// The refusal of a key that is no field of the command.
pub fn refuse_key(
    alloc: Global,
    command: WorkbenchCommand,
    key: &str,
) -> Result<Response, AllocError>
    ensures { IfOk result (Refuses (unknown_refusal command key.now)) }
{
    let mut why = Vec::from_slice(alloc, b"no field of ")?;
    why.extend_from_slice(command.name().as_bytes())?;
    refuse_field(alloc, first_bytes(key.as_bytes(), MOST_KEY), why.as_slice())
}

/// The refusal of a field that is wrong.
pub fn refuse_wrong(alloc: Global, wrong: Wrong) -> Result<Response, AllocError>
    ensures { IfOk result (Refuses (wrong_refusal wrong)) }
{
    let mut why = Vec::from_slice(alloc, wrong.fault.words().as_bytes())?;
    push_range(alloc, &mut why, wrong.fault)?;
    refuse_field(alloc, wrong.field.name().as_bytes(), why.as_slice())
}
