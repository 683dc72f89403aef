//! What the labels in operands name.
ghost use Rattle.std.specs.Prelude.{◌≡◌, ◌≤◌, ◌<◌, ℕ, IfOk};
ghost use Rattle.mx_lines.specs.Terms.{DATA_END, IsSignedField, IsPlace};
ghost use Rattle.mx_lines.specs.Fitting.{LabelsFit, NamedFits};
ghost use Rattle.mx_lines.specs.LabelTable.{IsNear};
ghost use Rattle.mx_lines.specs.declared.labels.TheConstants.{PAST_END};
ghost use Rattle.mx_lines.specs.Shapes.{word};
ghost use Rattle.mx_lines.specs.Operands;

use crate::fault::Fault;
use crate::labels::Labels;
use crate::operands::immediate;
use crate::word::Word;
use mx_source::Label;

/// What the label of this name names.
#[tactic(auto, unfolding(crate::specs::Operands::any_label))]
pub fn any_label(labels: &Labels, name: &[u8]) -> Result<Label, Fault>
    ensures label { result ≡ Operands.any_label labels.now name.now }
    ensures near { IfOk result IsNear }
    ensures fits { (count : ℕ) → LabelsFit count labels.now → IfOk result (NamedFits labels.now count) }
{
    labels.find(name).ok_or(Fault::UndefinedLabel)
}

/// The index that a code label names.
#[tactic(auto, unfolding(crate::specs::Operands::code_label))]
pub fn code_label(labels: &Labels, name: &[u8]) -> Result<u32, Fault>
    ensures index { result ≡ Operands.code_label labels.now name.now }
    ensures fits { (count : ℕ) → LabelsFit count labels.now → IfOk result (IsPlace labels.now count) }
{
    match any_label(labels, name)? {
        Label::Code(index) => Ok(index),
        Label::Data(_) => Err(Fault::WrongLabelKind),
    }
}

/// The address that a data label names.
#[tactic(auto, unfolding(crate::specs::Operands::data_label))]
pub fn data_label(labels: &Labels, name: &[u8]) -> Result<u32, Fault>
    ensures address { result ≡ Operands.data_label labels.now name.now }
    ensures near { IfOk result (λ a. a ≤ PAST_END) }
    ensures fits { (count : ℕ) → LabelsFit count labels.now → IfOk result (λ a. a < DATA_END) }
{
    match any_label(labels, name)? {
        Label::Data(address) => Ok(address),
        Label::Code(_) => Err(Fault::WrongLabelKind),
    }
}

/// The offset of a load or a store.
#[tactic(auto, unfolding(crate::specs::Operands::offset))]
pub fn offset(labels: &Labels, offset: &Word) -> Result<i32, Fault>
    ensures value { result ≡ Operands.offset labels.now (word offset.now) }
    ensures fits { (count : ℕ) → LabelsFit count labels.now → IfOk result (IsSignedField 16) }
{
    match offset {
        Word::Number { negative, value } => immediate(*negative, *value),
        Word::Name(label) => {
            let address = data_label(labels, label)?;
            Ok(address as i32)
        }
        _ => Err(Fault::BadOperands),
    }
}
