//! What a line does, or its fault.
ghost use Rattle.std.specs.Prelude.{◌≡◌, ◌≤◌, ◌<◌, ◌-◌, ◌^◌, ℕ, None, Some, Ok, map, length, IfOk, IfErr};
ghost use Rattle.mx_asm.specs.Terms.{MAX_STATEMENTS, PAST_END, LabelsFit, word, words_of};
ghost use Rattle.mx_asm.specs.Directives.{effect_of};
ghost use Rattle.mx_asm.specs.Effects.{effect, EffectFits, IsFaultOf};
ghost use Rattle.mx_asm.specs.Faults;
ghost use Rattle.mx_asm.specs.Positions.{line_words};
ghost use Rattle.mx_asm.specs.Positions;

use crate::effect::{Effect, effect_of};
use crate::front::{has_dotted_label, has_label, statement_words};
use crate::position::{Position, Section};
use mx_isa::MAX_STATEMENTS;
use mx_lines::{Fault, Labels, LineError, MAX_LINE_BYTES, Word, split_words};
use std::alloc::Global;

/// What a line does, and where the next one stands.
#[derive(Drop)]
pub struct Line {
    pub effect: Effect,
    pub next: Position,
}

/// The fault comes before a label that is defined again.
fn is_early(fault: &Fault) -> bool
    ensures { result ≡ Faults.is_early fault.now }
{
    match fault {
        Fault::UnknownMnemonic
        | Fault::BadOperands
        | Fault::BadRegister
        | Fault::NumberOutOfRange => true,
        _ => false,
    }
}

/// The fault of a statement, or the one that comes before it.
fn with_repeat(repeated: bool, fault: Fault) -> Fault
    ensures { result ≡ Faults.with_repeat repeated fault }
{
    if repeated && !is_early(&fault) {
        Fault::DuplicateLabel
    } else {
        fault
    }
}

/// The last three faults of a line that stands at a position.
pub fn place_fault(
    end: u32,
    position: &Position,
    next: &Position,
    long: usize,
    words: &[Word],
) -> Option<Fault>
    requires { next.now ≡ Positions.after position.now (map word words.now) }
    ensures fault { result ≡ Faults.place_fault end position.now long (map word words.now) }
    ensures few { result ≡ None → next.now.index ≤ MAX_STATEMENTS }
    ensures within { result ≡ None → next.now.address ≤ end }
{
    if next.index > MAX_STATEMENTS as u32 {
        Some(Fault::TooManyInstructions)
    } else if next.address > end || stands_past(end, position, words) {
        Some(Fault::DataFull)
    } else if long > MAX_LINE_BYTES {
        Some(Fault::LineTooLong)
    } else {
        None
    }
}

/// A data label of the line would stand past the end of memory.
fn stands_past(end: u32, position: &Position, words: &[Word]) -> bool
    ensures { result ≡ Faults.stands_past end position.now (map word words.now) }
{
    is_data(&position.section) && has_label(words) && position.address >= end
}

/// The data section.
pub(crate) fn is_data(section: &Section) -> bool
    ensures { result ≡ Faults.is_data section.now }
{
    match section {
        Section::Data => true,
        Section::Code => false,
    }
}

/// What a line does that stands here, or its fault.
///
/// `words` are those of a line before, and of this one from then on.
pub fn read_line<'a>(
    alloc: Global,
    words: &mut Vec<Word<'a>>,
    labels: &Labels,
    end: u32,
    position: &Position,
    repeated: bool,
    line: &'a [u8],
) -> Result<Line, LineError>
    requires room { position.now.index < 2 ^ 32 - 1 }
    requires near { position.now.address ≤ PAST_END }
    ensures faultless { IfOk result (λ r. Faults.words_fault labels.now end position.now repeated (length line.entry.now) (words_of line.entry.now) ≡ None) }
    ensures effect { IfOk result
        (λ r. effect_of labels.now position.now.section (Positions.statement_words (line_words line.entry.now)) ≡ Ok (effect r.effect)) }
    ensures next { IfOk result (λ r. r.next ≡ Positions.after position.now (line_words line.entry.now)) }
    ensures few { IfOk result (λ r. r.next.index ≤ MAX_STATEMENTS) }
    ensures within { IfOk result (λ r. r.next.address ≤ end) }
    ensures fits { (count : ℕ) → LabelsFit count labels.now → IfOk result (λ r. EffectFits labels.now count (effect r.effect)) }
    ensures fault { IfErr result (IsFaultOf (Faults.words_fault labels.now end position.now repeated (length line.entry.now) (words_of line.entry.now))) }
{
    split_words(words, line)?;
    let statement = statement_words(words);
    let effect = match effect_of(alloc, labels, position.section, statement) {
        Ok(effect) => effect,
        Err(LineError::Fault(fault)) => {
            return Err(LineError::Fault(with_repeat(repeated, fault)));
        }
        Err(LineError::Memory) => return Err(LineError::Memory),
    };
    if repeated {
        return Err(LineError::Fault(Fault::DuplicateLabel));
    }
    let next = position.after(statement);
    if has_dotted_label(words) {
        return Err(LineError::Fault(Fault::BadDirective));
    }
    match place_fault(end, position, &next, line.len(), words) {
        Some(fault) => Err(LineError::Fault(fault)),
        None => Ok(Line { effect, next }),
    }
}
