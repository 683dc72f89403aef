//! What is wrong with the value of a field. Nothing here takes memory.
ghost use Rattle.std.specs.Prelude.{◌≡◌, option_map, map, nat_le};
ghost use Rattle.serde_json.specs.View.{view};
ghost use Rattle.serde_json.specs.Find.{as_array, as_str};
ghost use Rattle.lab_request.specs.Fields.{listed, unless, number_fault, is_requests, list_fault, input_fault, plans_fault, fault_in, fault_without, fault_of};

use crate::values::{are_bytes, are_cycles, is_form, is_name, is_scheduler, is_within};
use crate::{Fault, Field};
use serde_json::Value;

/// How many interrupts a request has at most.
const MOST_REQUESTS: usize = 65_536;

/// How many bytes an input, or a plan file, has at most.
const MOST_INPUT: usize = 1_048_576;

/// The most cycles of a run, of a drawing and of a trace.
const MOST_BUDGET: u64 = 100_000_000;

const MOST_DRAWN: u64 = 100_000;

const MOST_TRACED: u64 = 10_000;

/// The last data word, and how many there are.
const LAST_WORD: u64 = 65_535;

const MOST_WORDS: u64 = 65_536;

/// The most words of a line of a cache, and the greatest cost of a miss.
const MOST_OF_LINE: u64 = 64;

const MOST_PENALTY: u64 = 1000;

// The fault, unless a test holds.
fn unless(holds: bool, fault: Fault) -> Option<Fault>
    ensures { result ≡ unless holds fault }
{
    if holds { None } else { Some(fault) }
}

fn number_fault(value: &Value, least: u64, most: u64) -> Option<Fault>
    ensures { result ≡ number_fault least most (view value.now) }
{
    unless(
        is_within(value, least, most),
        Fault::NoNumber { least, most },
    )
}

// Whether a value is a list of cycles.
fn is_requests(value: &Value) -> bool
    ensures { result ≡ is_requests (option_map listed (as_array (view value.now))) }
{
    match value.as_array() {
        Some(items) => items.len() <= MOST_REQUESTS && are_cycles(items.as_slice()),
        None => false,
    }
}

// What is wrong with an input, or a plan file, of so many bytes.
fn length_fault(length: usize) -> Option<Fault>
    ensures { result ≡ unless (nat_le length 1048576) Fault.TooLong }
{
    unless(length <= MOST_INPUT, Fault::TooLong)
}

// What is wrong with an input that is a list.
fn list_fault(items: &[Value]) -> Option<Fault>
    ensures { result ≡ list_fault (map view items.now) }
{
    if are_bytes(items) {
        length_fault(items.len())
    } else {
        Some(Fault::NoBytes)
    }
}

fn input_fault(value: &Value) -> Option<Fault>
    ensures { result ≡ input_fault (view value.now) }
{
    match value {
        Value::String(text) => length_fault(text.len()),
        Value::Array(items) => list_fault(items.as_slice()),
        _ => Some(Fault::NoBytes),
    }
}

fn name_fault(value: &Value) -> Option<Fault>
    ensures { result ≡ fault_in Field.Name (view value.now) }
{
    match value.as_str() {
        Some(text) => unless(is_name(text), Fault::NoName),
        None => Some(Fault::NoName),
    }
}

fn form_fault(value: &Value) -> Option<Fault>
    ensures { result ≡ fault_in Field.Form (view value.now) }
{
    match value.as_str() {
        Some(text) => unless(is_form(text), Fault::NoForm),
        None => Some(Fault::NoForm),
    }
}

fn scheduler_fault(value: &Value) -> Option<Fault>
    ensures { result ≡ fault_in Field.Scheduler (view value.now) }
{
    match value.as_str() {
        Some(text) => unless(is_scheduler(text), Fault::NoScheduler),
        None => Some(Fault::NoScheduler),
    }
}

// What is wrong with a plan file.
fn plans_fault(value: &Value) -> Option<Fault>
    ensures { result ≡ plans_fault (as_str (view value.now)) }
{
    match value.as_str() {
        Some(text) => length_fault(text.len()),
        None => Some(Fault::NoString),
    }
}

// What is wrong with the value of a field.
fn fault_in(field: Field, value: &Value) -> Option<Fault>
    ensures { result ≡ fault_in field (view value.now) }
{
    match field {
        Field::Source => unless(value.is_string(), Fault::NoString),
        Field::Name => name_fault(value),
        Field::Interrupts => unless(is_requests(value), Fault::NoCycles),
        Field::Input => input_fault(value),
        Field::Budget => number_fault(value, 1, MOST_BUDGET),
        Field::From => number_fault(value, 0, MOST_BUDGET),
        Field::Cycles => number_fault(value, 1, MOST_DRAWN),
        Field::Trace => number_fault(value, 0, MOST_TRACED),
        Field::Dump => number_fault(value, 0, LAST_WORD),
        Field::Count => number_fault(value, 1, MOST_WORDS),
        Field::Form => form_fault(value),
        Field::Scheduler => scheduler_fault(value),
        Field::Plans | Field::PlanFile => plans_fault(value),
        Field::To => number_fault(value, 0, MOST_BUDGET),
        Field::Step => number_fault(value, 1, MOST_BUDGET),
        Field::Line | Field::Brings => number_fault(value, 1, MOST_OF_LINE),
        Field::Penalty => number_fault(value, 0, MOST_PENALTY),
    }
}

// What is wrong where a field is left out.
fn fault_without(field: Field) -> Option<Fault>
    ensures { result ≡ fault_without field }
{
    match field {
        Field::Source => Some(Fault::LeftOut),
        Field::Name
        | Field::Interrupts
        | Field::Input
        | Field::Budget
        | Field::From
        | Field::Cycles
        | Field::Trace
        | Field::Dump
        | Field::Count
        | Field::Form
        | Field::Scheduler
        | Field::Plans
        | Field::PlanFile
        | Field::To
        | Field::Step
        | Field::Line
        | Field::Brings
        | Field::Penalty => None,
    }
}

/// What is wrong with a field that has this value, or is left out.
pub fn fault_of(field: Field, value: Option<&Value>) -> Option<Fault>
    ensures { result ≡ fault_of field (option_map (λ v. view v.now) value.entry) }
{
    match value {
        Some(value) => fault_in(field, value),
        None => fault_without(field),
    }
}
