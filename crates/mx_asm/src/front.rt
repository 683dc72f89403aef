//! The labels at the front of a line.
ghost use Rattle.std.specs.Prelude.{◌≡◌, ◌≤◌, true, length, map, OnOk, IfOk};
ghost use Rattle.mx_asm.specs.Terms.{IsNear, word};
ghost use Rattle.mx_asm.specs.Positions;

use crate::directive::is_dotted;
use mx_lines::{Labels, Word};
use mx_source::Label;
use std::alloc::{AllocError, Global};

/// A name and a `:` stand at the front.
pub fn begins_label(words: &[Word]) -> bool
    ensures front { result ≡ Positions.begins_label (map word words.now) }
    ensures two { result ≡ true → 2 ≤ length words.now }
{
    match words {
        [Word::Name(_), Word::Colon, ..] => true,
        _ => false,
    }
}

/// The name at the front.
pub fn first_name<'a>(words: &[Word<'a>]) -> &'a [u8]
    ensures { result.now ≡ Positions.first_name (map word words.now) }
{
    match words {
        [Word::Name(name), ..] => name,
        _ => &[],
    }
}

/// The statement behind the labels at the front.
pub fn statement_words<'a, 'w>(words: &'w [Word<'a>]) -> &'w [Word<'a>]
    ensures { map word result.now ≡ Positions.statement_words (map word words.entry.now) }
{
    let mut rest = words;
    while let [Word::Name(_), Word::Colon, tail @ ..] = rest {
        rest = tail;
    }
    rest
}

/// Defines the labels at the front, and tells whether one of them is defined before.
pub fn define_front(labels: &mut Labels, label: Label, words: &[Word]) -> Result<bool, AllocError>
    requires { IsNear label }
    ensures labels { OnOk result (labels.new ≡ Positions.define_front labels.old label (map word words.now)) }
    ensures repeated { IfOk result (λ b. b ≡ Positions.is_repeated labels.old label (map word words.now)) }
{
    let mut repeated = false;
    let mut rest = words;
    while begins_label(rest) {
        repeated |= define_own(labels, label, first_name(rest))?;
        rest = &rest[2..];
    }
    Ok(repeated)
}

/// Defines a label unless it is defined or none, and tells whether it is defined before.
#[tactic(auto, unfolding(crate::specs::Positions::define))]
pub fn define_own(labels: &mut Labels, label: Label, name: &[u8]) -> Result<bool, AllocError>
    requires { IsNear label }
    ensures labels { OnOk result (labels.new ≡ Positions.define labels.old label name.now) }
    ensures repeated { IfOk result (λ b. b ≡ Positions.is_defined labels.old name.now) }
{
    if is_dotted(name) {
        return Ok(false);
    }
    if labels.find(name).is_some() {
        return Ok(true);
    }
    labels.define(name, label)?;
    Ok(false)
}

/// A name that begins with `.` stands in the place of a label.
pub fn has_dotted_label(words: &[Word]) -> bool
    ensures { result ≡ Positions.has_dotted_label (map word words.now) }
{
    let mut rest = words;
    while let [Word::Name(name), Word::Colon, tail @ ..] = rest {
        if is_dotted(name) {
            return true;
        }
        rest = tail;
    }
    false
}

/// The line defines a label.
pub(crate) fn has_label(words: &[Word]) -> bool
    ensures { result ≡ Positions.has_label (map word words.now) }
{
    let mut rest = words;
    while begins_label(rest) {
        if !is_dotted(first_name(rest)) {
            return true;
        }
        rest = &rest[2..];
    }
    false
}
