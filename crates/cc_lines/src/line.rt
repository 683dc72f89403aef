//! Lines.
ghost use Rattle.std.specs.Prelude.{◌≡◌, ◌==◌, ◌||◌, ◌↔◌, [], drop, IfSome, IfOk};
ghost use Rattle.std.specs.List.{before_first};
ghost use Rattle.cc_lines.specs.Bytes;

use crate::constants::Constants;
use crate::cursor::{Mark, is_named, split_before, split_name, trimmed, trimmed_front};
use crate::directive::{DirectiveLine, directive_read};
use crate::instruction::Statement;
use crate::reading::statement_read;
use crate::refusal::Refusal;

/// How many labels a line may have.
pub const MOST_LABELS: u32 = 256;

/// What follows the labels of a line.
#[derive(Clone, Copy)]
pub enum Line<'a> {
    Nothing,
    Statement(Statement<'a>),
    Directive(DirectiveLine<'a>),
}

/// The label at the front of a line, and the rest after it.
pub fn label_before(text: &[u8]) -> Option<(&[u8], &[u8])>
    ensures name { IfSome result (λ found. found.0.now ≡ Bytes.name_of text.now) }
    ensures rest { IfSome result (λ found. found.1.now ≡ Bytes.front_trimmed (drop 1 (Bytes.behind_name text.now))) }
{
    let (name, rest) = split_name(text);
    match rest {
        [b':', behind @ ..] if !name.is_empty() => Some((name, trimmed_front(behind))),
        _ => None,
    }
}

/// The word that a text without labels begins with: its mnemonic or directive.
pub fn first_word(text: &[u8]) -> &[u8]
    ensures { result.now ≡ before_first (λ b. b == 32 || b == 9) text.now }
{
    split_before(text, Mark::Gap).0
}

/// What a text without comment and labels spells.
pub fn line_read<'a>(text: &'a [u8], constants: &Constants<'_>) -> Result<Line<'a>, Refusal>
    ensures { IfOk result (λ line. line ≡ Line.Nothing ↔ text.now ≡ []) }
{
    match text {
        [] => Ok(Line::Nothing),
        [b'.', ..] | [b'$', ..] => Ok(Line::Directive(directive_read(text, constants)?)),
        [first, ..] if is_named(*first) => {
            let word = first_word(text);
            let rest = trimmed(text.get(word.len()..).unwrap_or(&[]));
            if let [b'=', ..] = rest {
                return Ok(Line::Directive(directive_read(text, constants)?));
            }
            Ok(Line::Statement(statement_read(word, rest, constants)?))
        }
        _ => Err(Refusal::UnknownMnemonic),
    }
}
