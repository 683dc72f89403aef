//! The canonical text of a source.
ghost use Rattle.std.specs.Prelude.{◌≡◌, ◌+◌, ◌<◌, ◌≤◌, ◌||◌, ◌++◌, ◌∷◌, [], length, All, false, IfOk, OnOk, codes};
ghost use Rattle.std.specs.List.{list_any};
ghost use Rattle.indexmap.specs.IndexMap.{values};
ghost use Rattle.mx_isa.specs.declared.board.TheConstants.{DATA_BASE, MAX_DATA_WORDS};
ghost use Rattle.mx_source.specs.Names.{named_labels};
ghost use Rattle.mx_source.specs.Labels.{is_data_label};
ghost use Rattle.mx_source.specs.Statements.{StatementFits, ValueFits};
ghost use Rattle.mx_source.specs.SourceValue.{IsSource};
ghost use Rattle.mx_source.specs.Printed.{Labels, place_name, spelled, condition_text, statement_text, value_text, code_text, words_text, data_text, has_words, input_text, printed};
ghost use Rattle.mx_source.specs.Operands.{operand_text};
ghost use Rattle.mx_source.specs.Groups.{AreGroups};

use crate::group::{Group, Section};
use crate::grouping::groups;
use crate::mnemonic::branch_name;
use crate::text::{Operand, Text};
use crate::{Label, Name, Source, Statement, Value};
use indexmap::IndexMap;
use mx_isa::Cond;
use std::alloc::{AllocError, Global};

/// The canonical text.
pub(crate) fn printed(alloc: Global, source: &Source) -> Result<Vec<u8>, AllocError>
    ensures { IfOk result (λ text. text.items ≡ printed source.now) }
{
    let mut text = Text::new(alloc);
    input_line(&mut text, source.input())?;
    let statements = source.statements();
    let labels = source.labels();
    let places = groups(alloc, Section::Code, statements.len() + 1, labels)?;
    code(&mut text, places.as_slice(), statements)?;
    data_section(
        alloc,
        &mut text,
        places.as_slice(),
        source.user_data(),
        labels,
    )?;
    Ok(text.into_bytes())
}

/// The line that says that the source has input.
fn input_line(text: &mut Text, input: Option<u32>) -> Result<(), AllocError>
    ensures { OnOk result (text.new ≡ text.old ++ input_text input) }
{
    match input {
        Some(_) => text.put(b".input\n"),
        None => Ok(()),
    }
}

/// The statements with their labels.
fn code(text: &mut Text, places: &[Group], statements: &[Statement]) -> Result<(), AllocError>
    requires places { length places.now ≡ length statements.now + 1 }
    requires fit { All (StatementFits (λ i. i < length places.now)) statements.now }
    ensures { OnOk result ((labels : Labels) → AreGroups Section.Code labels places.now →
        text.new ≡ text.old ++ code_text labels 0 statements.now) }
{
    for (i, one) in statements.iter().enumerate() {
        text.put(places[i].lines())?;
        statement(text, places, one)?;
        text.put(b"\n")?;
    }
    text.put(places[statements.len()].lines())
}

/// The data section, where there are data words or data labels.
fn data_section(
    alloc: Global,
    text: &mut Text,
    places: &[Group],
    words: &[Value],
    labels: &IndexMap<Name, Label>,
) -> Result<(), AllocError>
    requires few { length words.now ≤ MAX_DATA_WORDS }
    requires fit { All (ValueFits (λ i. i < length places.now)) words.now }
    requires groups { AreGroups Section.Code (named_labels labels.now.entries) places.now }
    ensures { OnOk result (text.new ≡ text.old ++ data_text (named_labels labels.now.entries) words.now) }
{
    if !has_section(words, labels) {
        return Ok(());
    }
    text.put(b".data\n")?;
    let at = groups(alloc, Section::Data, words.len() + 1, labels)?;
    user_data(text, places, at.as_slice(), words)
}

/// Whether there are data words or data labels.
fn has_section(words: &[Value], labels: &IndexMap<Name, Label>) -> bool
    ensures { result ≡ (has_words words.now || list_any is_data_label (values labels.now)) }
{
    !words.is_empty() || has_data_label(labels)
}

/// Whether some label is a data label.
fn has_data_label(labels: &IndexMap<Name, Label>) -> bool
    ensures { result ≡ list_any is_data_label (values labels.now) }
{
    labels.values().any(|label| matches!(label, Label::Data(_)))
}

/// The data words with their labels, of which the groups are `at`.
fn user_data(
    text: &mut Text,
    places: &[Group],
    at: &[Group],
    words: &[Value],
) -> Result<(), AllocError>
    requires groups { length at.now ≡ length words.now + 1 }
    requires fit { All (ValueFits (λ i. i < length places.now)) words.now }
    ensures { OnOk result ((labels : Labels) → AreGroups Section.Code labels places.now → AreGroups Section.Data labels at.now →
        text.new ≡ text.old ++ words_text labels DATA_BASE words.now) }
{
    for (i, word) in words.iter().enumerate() {
        text.put(at[i].lines())?;
        value(text, places, word)?;
        text.put(b"\n")?;
    }
    text.put(at[words.len()].lines())
}

/// A data word.
fn value(text: &mut Text, places: &[Group], value: &Value) -> Result<(), AllocError>
    requires { ValueFits (λ i. i < length places.now) value.now }
    ensures { OnOk result ((labels : Labels) → AreGroups Section.Code labels places.now →
        text.new ≡ text.old ++ spelled (codes ".word") (value_text labels value.now ∷ [])) }
{
    match value {
        Value::Int(word) => text.one(b".word", &Operand::Word(*word)),
        Value::Code(i) => text.one(b".word", &name(places, *i)),
    }
}

/// A statement.
fn statement(text: &mut Text, places: &[Group], statement: &Statement) -> Result<(), AllocError>
    requires { StatementFits (λ i. i < length places.now) statement.now }
    ensures { OnOk result ((labels : Labels) → AreGroups Section.Code labels places.now →
        text.new ≡ text.old ++ statement_text labels statement.now) }
{
    match statement {
        Statement::Plain(inst) => text.instruction(inst),
        Statement::LaCode { dest, target } => {
            text.two(b"la", &name(places, *target), &Operand::Register(*dest))
        }
        Statement::Branch { a, b, cond, target } => text.three(
            mnemonic(*cond),
            &Operand::Register(*a),
            &Operand::Register(*b),
            &name(places, *target),
        ),
        Statement::Call { dest, target } => {
            text.two(b"call", &name(places, *target), &Operand::Register(*dest))
        }
        Statement::CallReg { a, dest } => {
            text.two(b"callr", &Operand::Register(*a), &Operand::Register(*dest))
        }
        Statement::JumpReg { a } => text.one(b"jr", &Operand::Register(*a)),
        Statement::Halt => text.put(b"halt"),
    }
}

/// The name of a place of code: that of its first label.
fn name(places: &[Group], i: u32) -> Operand<'_>
    requires { i < length places.now }
    ensures { (labels : Labels) → AreGroups Section.Code labels places.now → operand_text result ≡ place_name labels i }
{
    Operand::Name(places[i as usize].first())
}

/// The mnemonic of a branch, as bytes.
fn mnemonic(cond: Cond) -> &'static [u8]
    ensures { result.now ≡ condition_text cond }
{
    branch_name(cond).as_bytes()
}
