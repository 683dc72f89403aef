//! The words of a plan's line.
ghost use Rattle.std.specs.Prelude.{◌≡◌};
ghost use Rattle.mx_plans.specs.Marks.{number_of, mark_of, copies_word, item_said, is_terminator};

use mx_blocks::{Block, Item};

/// What one word of a line says.
#[derive(Clone, Copy, Debug, PartialEq, Eq)]
pub enum Mark {
    /// An instruction of the block by its number, from 0 to 63.
    Number(u8),
    /// A no-op.
    NoOp,
    /// The last instruction of the block, which stands at the plan's place.
    Terminator,
}

impl Default for Mark {
    fn default() -> Mark
        ensures { result ≡ Mark.NoOp }
    {
        Mark::NoOp
    }
}

/// The number that one or two digits write, where it is at most 63.
fn number_of(word: &[u8]) -> Option<Mark>
    ensures { result ≡ number_of word.now }
{
    match *word {
        [ones] if ones.is_ascii_digit() => Some(Mark::Number(ones - b'0')),
        [tens, ones] if tens.is_ascii_digit() && ones.is_ascii_digit() => {
            let number = (tens - b'0') * 10 + (ones - b'0');
            if number < 64 {
                Some(Mark::Number(number))
            } else {
                None
            }
        }
        _ => None,
    }
}

/// What a word says, if it says something.
pub(crate) fn mark_of(word: &[u8]) -> Option<Mark>
    ensures { result ≡ mark_of word.now }
{
    match *word {
        [b'-'] => Some(Mark::NoOp),
        [b'/'] => Some(Mark::Terminator),
        _ => number_of(word),
    }
}

/// How many words of the target the slots copy, as `+0`, `+1` or `+2` chooses.
pub(crate) fn copies_word(word: &[u8]) -> Option<u8>
    ensures { result ≡ copies_word word.now }
{
    match *word {
        [b'+', digit] if b'0' <= digit && digit <= b'2' => Some(digit - b'0'),
        _ => None,
    }
}

/// Whether it is `/`.
pub(crate) fn is_terminator(mark: Mark) -> bool
    ensures { result ≡ is_terminator mark }
{
    matches!(mark, Mark::Terminator)
}

/// The item that stands for a word in a plan of the block.
pub(crate) fn item_said(block: &Block, mark: Mark) -> Item
    ensures { result ≡ item_said block.now mark }
{
    match mark {
        Mark::Number(k) => Item::Op(k),
        Mark::NoOp => Item::Nop,
        Mark::Terminator => Item::Op((block.insts.len() - 1) as u8),
    }
}
