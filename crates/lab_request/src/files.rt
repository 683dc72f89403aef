//! The files of a request.
ghost use Rattle.std.specs.Prelude.{◌≡◌, ℕ, List, codes, false, IfOk, OnOk, map, option_map, option_and_then};
ghost use Rattle.std.specs.List.{flat_map};
ghost use Rattle.mx_io.specs.MemoryShelf.{held_in, fails_at, SameFailing};
ghost use Rattle.serde_json.specs.View.{view, items_view};
ghost use Rattle.serde_json.specs.Find.{get, as_array};
ghost use Rattle.lab_request.specs.Requests.{cycle_line, source_in, byte_in, bytes_in, interrupts_file, interrupts_in, input_file, input_in, plans_file, plans_in, with_file, held_of};

use crate::values::number_in;
use crate::words::{INPUT_FILE, INTERRUPTS_FILE, PLANS_FILE, name_in};
use mx_io::{Memory, MemoryShelf};
use mx_text::push_decimal;
use serde_json::Value;
use std::alloc::{AllocError, Global};

// The text of the source.
fn source_in(value: &Value) -> &str
    ensures { result.now ≡ source_in (view value.entry.now) }
{
    match value.get("source") {
        Some(source) => source.as_str().unwrap_or(""),
        None => "",
    }
}

// A line for each cycle.
fn cycle_lines(alloc: Global, items: &[Value]) -> Result<Vec<u8>, AllocError>
    ensures { IfOk result (λ v. v.items ≡ flat_map cycle_line (map view items.now)) }
{
    let mut lines = Vec::new(alloc);
    for item in items {
        push_decimal(alloc, &mut lines, number_in(item))?;
        lines.push(b'\n')?;
    }
    Ok(lines)
}

// The bytes that the values of a list are.
fn bytes_of(alloc: Global, items: &[Value]) -> Result<Vec<u8>, AllocError>
    ensures { IfOk result (λ v. v.items ≡ map byte_in (map view items.now)) }
{
    let mut bytes = Vec::new(alloc);
    for item in items {
        bytes.push((number_in(item) % 256) as u8)?;
    }
    Ok(bytes)
}

// The bytes of an input.
fn bytes_in(alloc: Global, value: &Value) -> Result<Vec<u8>, AllocError>
    ensures { IfOk result (λ v. v.items ≡ bytes_in (view value.now)) }
{
    match value {
        Value::String(text) => Vec::from_slice(alloc, text.as_bytes()),
        Value::Array(items) => bytes_of(alloc, items.as_slice()),
        _ => Ok(Vec::new(alloc)),
    }
}

// The list of interrupts, if they are given.
fn interrupts_list(value: &Value) -> Option<&Vec<Value>>
    ensures { option_map (λ v. items_view v.now.items) result ≡ option_and_then as_array (get (codes "interrupts") (view value.entry.now)) }
{
    match value.get("interrupts") {
        Some(interrupts) => interrupts.as_array(),
        None => None,
    }
}

// Adds the file of the interrupts, if they are given.
fn add_interrupts(alloc: Global, files: &mut MemoryShelf, value: &Value) -> Result<(), Memory>
    ensures held { OnOk result ((n : List ℕ) → held_in files.new n
        ≡ with_file interrupts_file (interrupts_in (view value.now)) (held_in files.old) n) }
    ensures failing { SameFailing files.old files.new }
{
    let Some(items) = interrupts_list(value) else {
        return Ok(());
    };
    let Ok(lines) = cycle_lines(alloc, items.as_slice()) else {
        return Err(Memory);
    };
    files.add(INTERRUPTS_FILE, lines.as_slice())
}

// Adds the file of the input, if it is given.
fn add_input(alloc: Global, files: &mut MemoryShelf, value: &Value) -> Result<(), Memory>
    ensures held { OnOk result ((n : List ℕ) → held_in files.new n
        ≡ with_file input_file (input_in (view value.now)) (held_in files.old) n) }
    ensures failing { SameFailing files.old files.new }
{
    let Some(input) = value.get("input") else {
        return Ok(());
    };
    let Ok(bytes) = bytes_in(alloc, input) else {
        return Err(Memory);
    };
    files.add(INPUT_FILE, bytes.as_slice())
}

// The text of the plan file, if it is given.
fn plans_in(value: &Value) -> Option<&str>
    ensures { option_map (λ t. t.now) result ≡ plans_in (view value.entry.now) }
{
    match value.get("plans") {
        Some(plans) => plans.as_str(),
        None => None,
    }
}

// Adds the plan file, if it is given.
fn add_plans(files: &mut MemoryShelf, value: &Value) -> Result<(), Memory>
    ensures held { OnOk result ((n : List ℕ) → held_in files.new n
        ≡ with_file plans_file (plans_in (view value.now)) (held_in files.old) n) }
    ensures failing { SameFailing files.old files.new }
{
    match plans_in(value) {
        Some(text) => files.add(PLANS_FILE, text.as_bytes()),
        None => Ok(()),
    }
}

/// The files that a body gives, as a shelf in which no read fails.
pub fn files_of(alloc: Global, value: &Value) -> Result<MemoryShelf, Memory>
    ensures held { IfOk result (λ s. (n : List ℕ) → held_in s n ≡ held_of (view value.now) n) }
    ensures never { IfOk result (λ s. (n : ℕ) → fails_at s n ≡ false) }
{
    let mut files = MemoryShelf::new(alloc);
    add_plans(&mut files, value)?;
    add_input(alloc, &mut files, value)?;
    add_interrupts(alloc, &mut files, value)?;
    files.add(name_in(value), source_in(value).as_bytes())?;
    Ok(files)
}
