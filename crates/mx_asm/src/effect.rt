//! What the statement of a line does.
ghost use Rattle.std.specs.Prelude.{◌≡◌, ◌≤◌, ℕ, map, IfOk, All, replicate};
ghost use Rattle.mx_source.specs.declared.statement.Value.TheVariants.{Int};
ghost use Rattle.mx_asm.specs.Terms.{IsPlace, ValueFits, Gives, seen, LabelsFit, word};
ghost use Rattle.mx_asm.specs.Directives;
ghost use Rattle.mx_asm.specs.Effects;
ghost use Rattle.mx_asm.specs.Effects.{effect, EffectFits};
ghost use Rattle.mx_lines.specs.Shapes;

use crate::directive::{Directive, directive_named, is_dotted, space_count};
use crate::position::Section;
use mx_lines::{Fault, Labels, LineError, Word, any_label, data_word, instruction};
use mx_source::{Label, Statement, Value};
use std::alloc::Global;

/// What a statement adds to the source.
#[derive(Drop)]
pub enum Effect {
    Nothing,
    Instruction(Statement),
    Data(Vec<Value>),
    Input,
}

/// A number or a name.
fn is_value(value: &Word) -> bool
    ensures { result ≡ Directives.is_value (word value.now) }
{
    match value {
        Word::Name(_) | Word::Number { .. } => true,
        _ => false,
    }
}

/// The values in `V`, or `V,V` and so on.
fn value_words<'a>(alloc: Global, words: &[Word<'a>]) -> Result<Vec<Word<'a>>, LineError>
    ensures { Gives (λ v. map word v.items) result (Directives.value_words (map word words.now)) }
{
    let mut values = Vec::new(alloc);
    let mut rest = words;
    'values: loop {
        match rest {
            [] => return Err(LineError::Fault(Fault::BadDirective)),
            [value] => {
                if !is_value(value) {
                    return Err(LineError::Fault(Fault::BadDirective));
                }
                values.push(*value)?;
                return Ok(values);
            }
            [value, separator, tail @ ..] => {
                if !is_comma(separator) || !is_value(value) {
                    return Err(LineError::Fault(Fault::BadDirective));
                }
                values.push(*value)?;
                rest = tail;
            }
        }
    }
}

/// A `,`.
fn is_comma(word: &Word) -> bool
    ensures { result ≡ Directives.is_comma (Shapes.word word.now) }
{
    match word {
        Word::Comma => true,
        _ => false,
    }
}

/// A number is a data word.
fn number_fits(value: &Word) -> Result<(), Fault>
    ensures { result ≡ Directives.number_fits (word value.now) }
{
    if let Word::Number { negative, value } = value {
        data_word(*negative, *value)?;
    }
    Ok(())
}

/// Each number among the values is a data word.
fn numbers_fit(values: &[Word]) -> Result<(), Fault>
    ensures { result ≡ Directives.numbers_fit (map word values.now) }
{
    for word in values {
        number_fits(word)?;
    }
    Ok(())
}

/// The data word of a value.
fn value_of(labels: &Labels, value: &Word) -> Result<Value, Fault>
    ensures value { result ≡ Directives.value_of labels.now (word value.now) }
    ensures fits { (count : ℕ) → LabelsFit count labels.now → IfOk result (ValueFits (IsPlace labels.now count)) }
{
    match value {
        Word::Number { negative, value } => Ok(Value::Int(data_word(*negative, *value)?)),
        Word::Name(name) => match any_label(labels, name)? {
            Label::Code(index) => Ok(Value::Code(index)),
            Label::Data(address) => Ok(Value::Int(address)),
        },
        _ => Err(Fault::BadDirective),
    }
}

/// The data words of values.
fn values_of(alloc: Global, labels: &Labels, words: &[Word]) -> Result<Vec<Value>, LineError>
    ensures values { Gives (λ v. v.items) result (Directives.values_of labels.now (map word words.now)) }
    ensures fits { (count : ℕ) → LabelsFit count labels.now → IfOk result (λ v. All (ValueFits (IsPlace labels.now count)) v.items) }
{
    let mut values = Vec::new(alloc);
    for word in words {
        let value = value_of(labels, word)?;
        values.push(value)?;
    }
    Ok(values)
}

/// The data words behind `.word`.
#[tactic(auto, unfolding(crate::specs::Directives::word_values))]
fn word_values(alloc: Global, labels: &Labels, words: &[Word]) -> Result<Vec<Value>, LineError>
    ensures values { Gives (λ v. v.items) result (Directives.word_values labels.now (map word words.now)) }
    ensures fits { (count : ℕ) → LabelsFit count labels.now → IfOk result (λ v. All (ValueFits (IsPlace labels.now count)) v.items) }
{
    let values = value_words(alloc, words)?;
    numbers_fit(&values)?;
    values_of(alloc, labels, &values)
}

/// So many words of 0.
fn zeros(alloc: Global, count: u32) -> Result<Vec<Value>, LineError>
    ensures { Gives (λ v. v.items) result (Ok (replicate count (Int 0))) }
{
    Ok(vec![in alloc; Value::Int(0); count as usize]?)
}

/// What a statement does in a section.
#[tactic(auto, unfolding(crate::specs::Directives::effect_of))]
pub fn effect_of(
    alloc: Global,
    labels: &Labels,
    section: Section,
    statement: &[Word],
) -> Result<Effect, LineError>
    ensures effect { Gives effect result (Directives.effect_of labels.now section (map word statement.now)) }
    ensures fits { (count : ℕ) → LabelsFit count labels.now → IfOk result (λ e. EffectFits labels.now count (effect e)) }
{
    match statement {
        [] => Ok(Effect::Nothing),
        [Word::Name(name), operands @ ..] => {
            if is_dotted(name) {
                directed(alloc, labels, section, name, operands)
            } else {
                in_code(section, instruction(labels, name, operands)?)
            }
        }
        [_, ..] => Err(LineError::Fault(Fault::BadOperands)),
    }
}

/// What a directive does.
#[tactic(auto, unfolding(crate::specs::Directives::directed))]
fn directed(
    alloc: Global,
    labels: &Labels,
    section: Section,
    name: &[u8],
    operands: &[Word],
) -> Result<Effect, LineError>
    ensures effect { Gives effect result (Directives.directed labels.now section (Directives.directive_named name.now) (map word operands.now)) }
    ensures fits { (count : ℕ) → LabelsFit count labels.now → IfOk result (λ e. EffectFits labels.now count (effect e)) }
{
    match directive_named(name) {
        Some(Directive::Code | Directive::Data) => alone(Effect::Nothing, operands),
        Some(Directive::Input) => alone(Effect::Input, operands),
        Some(Directive::Word) => in_data(section, word_values(alloc, labels, operands)?),
        Some(Directive::Space) => in_data(section, zeros(alloc, space_count(operands)?)?),
        None => Err(LineError::Fault(Fault::BadDirective)),
    }
}

/// An instruction stands in the code section.
fn in_code(section: Section, statement: Statement) -> Result<Effect, LineError>
    ensures { Gives effect result (Directives.in_code section statement) }
{
    match section {
        Section::Code => Ok(Effect::Instruction(statement)),
        Section::Data => Err(LineError::Fault(Fault::BadDirective)),
    }
}

/// Data stand in the data section.
fn in_data(section: Section, values: Vec<Value>) -> Result<Effect, LineError>
    ensures effect { Gives effect result (Directives.in_data section values.items) }
    ensures values { IfOk result (λ e. effect e ≡ Directives.Data values.items) }
{
    match section {
        Section::Data => Ok(Effect::Data(values)),
        Section::Code => Err(LineError::Fault(Fault::BadDirective)),
    }
}

/// A directive without operands.
fn alone(effect: Effect, operands: &[Word]) -> Result<Effect, LineError>
    ensures { Gives Effects.effect result (Directives.without_operands (Effects.effect effect) (map word operands.now)) }
{
    match operands {
        [] => Ok(effect),
        [_, ..] => Err(LineError::Fault(Fault::BadDirective)),
    }
}
