//! The words of a request.
ghost use Rattle.std.specs.Prelude.{◌≡◌, ◌++◌, [], ◌∷◌, Some, codes, decimal, IfOk, OnOk, map, option_map, option_and_then, unwrap_or, string_bytes};
ghost use Rattle.serde_json.specs.View.{view};
ghost use Rattle.serde_json.specs.Find.{as_str};
ghost use Rattle.lab_request.specs.Fields.{number_in};
ghost use Rattle.lab_request.specs.Requests.{name_in, plans_file, option_value, option_name, option_words, options_in, words_of};

use crate::values::number_in;
use crate::{Field, WorkbenchCommand};
use serde_json::Value;
use std::alloc::{AllocError, Global};

/// The names of the files beside the source.
pub const INTERRUPTS_FILE: &str = ".interrupts";

pub const INPUT_FILE: &str = ".input";

pub const PLANS_FILE: &str = ".plans";

/// What the source is called.
pub fn name_in(value: &Value) -> &str
    ensures { result.now ≡ name_in (view value.entry.now) }
{
    match value.get("name") {
        Some(name) => name.as_str().unwrap_or("source"),
        None => "source",
    }
}

// The word of a file that is given.
fn file_word(alloc: Global, file: &str, value: Option<&Value>) -> Result<Option<String>, AllocError>
    ensures { IfOk result (λ o. option_map string_bytes o ≡ option_map (λ d. file.now) value.entry) }
{
    match value {
        Some(_) => Ok(Some(String::from_str(alloc, file)?)),
        None => Ok(None),
    }
}

// The word of a plan file; without one it is to be printed.
fn plans_word(alloc: Global, value: Option<&Value>) -> Result<Option<String>, AllocError>
    ensures { IfOk result (λ o. option_map string_bytes o
        ≡ Some (unwrap_or (option_map (λ d. plans_file) value.entry) (codes "--print"))) }
{
    match value {
        Some(_) => Ok(Some(String::from_str(alloc, PLANS_FILE)?)),
        None => Ok(Some(String::from_str(alloc, "--print")?)),
    }
}

// The word of a number that is given.
fn number_word(alloc: Global, value: Option<&Value>) -> Result<Option<String>, AllocError>
    ensures { IfOk result (λ o. option_map string_bytes o
        ≡ option_map (λ d. decimal (number_in d)) (option_map (λ v. view v.now) value.entry)) }
{
    match value {
        Some(value) => {
            let n = number_in(value);
            Ok(Some(format!(in alloc; "{n}")?))
        }
        None => Ok(None),
    }
}

// The form of a picture.
fn form_in(value: Option<&Value>) -> &str
    ensures { result.now ≡ unwrap_or (option_and_then as_str (option_map (λ v. view v.now) value.entry)) (codes "json") }
{
    match value {
        Some(value) => value.as_str().unwrap_or("json"),
        None => "json",
    }
}

// The word that is given.
fn text_word(alloc: Global, value: Option<&Value>) -> Result<Option<String>, AllocError>
    ensures { IfOk result (λ o. option_map string_bytes o ≡ option_and_then as_str (option_map (λ v. view v.now) value.entry)) }
{
    match value {
        Some(value) => match value.as_str() {
            Some(text) => Ok(Some(String::from_str(alloc, text)?)),
            None => Ok(None),
        },
        None => Ok(None),
    }
}

// The value of the option that a field is.
fn option_value(
    alloc: Global,
    field: Field,
    value: Option<&Value>,
) -> Result<Option<String>, AllocError>
    ensures { IfOk result (λ o. option_map string_bytes o ≡ option_value field (option_map (λ v. view v.now) value.entry)) }
{
    match field {
        Field::Source | Field::Name => Ok(None),
        Field::Interrupts => file_word(alloc, INTERRUPTS_FILE, value),
        Field::Input => file_word(alloc, INPUT_FILE, value),
        Field::Plans => file_word(alloc, PLANS_FILE, value),
        Field::PlanFile => plans_word(alloc, value),
        Field::Budget
        | Field::From
        | Field::Cycles
        | Field::Trace
        | Field::Dump
        | Field::Count
        | Field::To
        | Field::Step
        | Field::Line
        | Field::Brings
        | Field::Penalty => number_word(alloc, value),
        Field::Form => Ok(Some(String::from_str(alloc, form_in(value))?)),
        Field::Scheduler => text_word(alloc, value),
    }
}

// Appends a word.
fn push_word(alloc: Global, words: &mut Vec<String>, word: &str) -> Result<(), AllocError>
    ensures { OnOk result (map string_bytes words.new.items ≡ map string_bytes words.old.items ++ word.now ∷ []) }
{
    words.push(String::from_str(alloc, word)?)?;
    Ok(())
}

// Appends the name of an option; a plan file may be an argument by itself.
fn push_option_name(alloc: Global, words: &mut Vec<String>, field: Field) -> Result<(), AllocError>
    ensures { OnOk result (map string_bytes words.new.items ≡ map string_bytes words.old.items ++ option_name field) }
{
    if let Field::PlanFile = field {
        return Ok(());
    }
    let mut option = String::from_str(alloc, "--")?;
    option.push_str(field.name())?;
    words.push(option)?;
    Ok(())
}

// Appends an option and its value, if it has one.
fn push_option(
    alloc: Global,
    words: &mut Vec<String>,
    field: Field,
    value: Option<String>,
) -> Result<(), AllocError>
    ensures { OnOk result (map string_bytes words.new.items
        ≡ map string_bytes words.old.items ++ option_words field (option_map string_bytes value)) }
{
    let Some(value) = value else {
        return Ok(());
    };
    push_option_name(alloc, words, field)?;
    words.push(value)?;
    Ok(())
}

// Appends the options of the fields.
fn push_options(
    alloc: Global,
    words: &mut Vec<String>,
    fields: &[Field],
    value: &Value,
) -> Result<(), AllocError>
    ensures { OnOk result (map string_bytes words.new.items
        ≡ map string_bytes words.old.items ++ options_in fields.now (view value.now)) }
{
    for field in fields {
        let given = option_value(alloc, *field, value.get(field.name()))?;
        push_option(alloc, words, *field, given)?;
    }
    Ok(())
}

// Appends words.
fn push_words(alloc: Global, words: &mut Vec<String>, more: &[&str]) -> Result<(), AllocError>
    ensures { OnOk result (map string_bytes words.new.items ≡ map string_bytes words.old.items ++ map (λ w. w.now) more.now) }
{
    for word in more {
        push_word(alloc, words, word)?;
    }
    Ok(())
}

/// The words of the command that a body asks for.
pub fn words_of(
    alloc: Global,
    command: WorkbenchCommand,
    value: &Value,
) -> Result<Vec<String>, AllocError>
    ensures { IfOk result (λ w. map string_bytes w.items ≡ words_of command (view value.now)) }
{
    let mut words = Vec::new(alloc);
    push_word(alloc, &mut words, command.name())?;
    push_word(alloc, &mut words, name_in(value))?;
    push_options(alloc, &mut words, command.fields(), value)?;
    push_words(alloc, &mut words, command.last_words())?;
    Ok(words)
}
