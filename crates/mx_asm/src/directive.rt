//! Directives.
ghost use Rattle.std.specs.Prelude.{◌≡◌, ◌≤◌, map, IfOk};
ghost use Rattle.mx_asm.specs.Terms.{MAX_DATA_WORDS, word};
ghost use Rattle.mx_asm.specs.Directives;

use mx_isa::MAX_DATA_WORDS;
use mx_lines::{Fault, Word, spells};

/// What a name with a `.` stands for.
#[derive(Clone, Copy)]
pub enum Directive {
    Code,
    Data,
    Input,
    Word,
    Space,
}

/// A name that begins with `.`.
pub fn is_dotted(name: &[u8]) -> bool
    ensures { result ≡ Directives.is_dotted name.now }
{
    match name {
        [b'.', ..] => true,
        _ => false,
    }
}

/// The directive that a name spells, in either case.
#[tactic(auto, unfolding(crate::specs::Directives::directive_named))]
pub fn directive_named(name: &[u8]) -> Option<Directive>
    ensures { result ≡ Directives.directive_named name.now }
{
    if spells(name, ".code") {
        Some(Directive::Code)
    } else if spells(name, ".data") {
        Some(Directive::Data)
    } else if spells(name, ".input") {
        Some(Directive::Input)
    } else if spells(name, ".word") {
        Some(Directive::Word)
    } else if spells(name, ".space") {
        Some(Directive::Space)
    } else {
        None
    }
}

/// The number behind `.space`.
#[tactic(auto, unfolding(crate::specs::Directives::space_count))]
pub fn space_count(words: &[Word]) -> Result<u32, Fault>
    ensures count { result ≡ Directives.space_count (map word words.now) }
    ensures few { IfOk result (λ k. k ≤ MAX_DATA_WORDS) }
{
    match words {
        [Word::Number { negative, value }] => {
            let most = if *negative { 0 } else { MAX_DATA_WORDS as u64 };
            if *value > most {
                return Err(Fault::NumberOutOfRange);
            }
            Ok(*value as u32)
        }
        _ => Err(Fault::BadDirective),
    }
}
