//! The words of a line.
ghost use Rattle.std.specs.Prelude.{◌≡◌, ◌≤◌, length, map, if◌then◌else◌};
ghost use Rattle.mx_lex.specs.Bytes;
ghost use Rattle.mx_lex.specs.Tokens;
ghost use Rattle.mx_lines.specs.declared.fault.Fault.TheVariants.{BadByte, BadToken};
ghost use Rattle.mx_lines.specs.Reading.{Gives};
ghost use Rattle.mx_lines.specs.Words;
ghost use Rattle.mx_lines.specs.Shapes.{word};

use crate::fault::{Fault, LineError};
use mx_lex::{Kind, Lexer, Token, is_allowed};

/// A token with what it says.
#[derive(Clone, Copy)]
pub enum Word<'a> {
    Name(&'a [u8]),
    Number { negative: bool, value: u64 },
    Comma,
    Open,
    Close,
    Hash,
    Colon,
    End,
}

/// The words of a line in the place of those before, or why there are none.
#[tactic(auto, unfolding(crate::specs::Words::words_of))]
pub fn split_words<'a>(words: &mut Vec<Word<'a>>, line: &'a [u8]) -> Result<(), LineError>
    ensures { Gives (λ _. map word words.new.items) result (Words.words_of line.entry.now) }
{
    words.clear();
    let mut lexer = Lexer::new(line);
    'tokens: loop {
        let Ok(token) = lexer.next() else {
            return Err(LineError::Fault(token_fault(line)));
        };
        if is_end(&token.kind) {
            return Ok(());
        }
        words.push(word_at(line, &token))?;
    }
}

/// The fault of a line that does not split into tokens.
fn token_fault(line: &[u8]) -> Fault
    ensures { result ≡ if Words.has_bad_byte line.now then BadByte else BadToken }
{
    if has_bad_byte(line) {
        Fault::BadByte
    } else {
        Fault::BadToken
    }
}

/// The line ends at such a token.
fn is_end(kind: &Kind) -> bool
    ensures { result ≡ Tokens.is_end kind.now }
{
    match kind {
        Kind::End => true,
        _ => false,
    }
}

/// A byte before the comment may not stand in a line.
fn has_bad_byte(line: &[u8]) -> bool
    ensures { result ≡ Words.has_bad_byte line.now }
{
    for byte in line {
        if *byte == b';' {
            return false;
        }
        if !is_allowed(*byte) {
            return true;
        }
    }
    false
}

/// What a token of the line says.
fn word_at<'a>(line: &'a [u8], token: &Token) -> Word<'a>
    requires ordered { token.now.start ≤ token.now.end }
    requires within { token.now.end ≤ length line.now }
    ensures { word result ≡ Words.word_at line.entry.now token.now }
{
    match token.kind {
        Kind::Name => Word::Name(&line[token.start..token.end]),
        Kind::Number { negative, value } => Word::Number { negative, value },
        Kind::Comma => Word::Comma,
        Kind::Open => Word::Open,
        Kind::Close => Word::Close,
        Kind::Hash => Word::Hash,
        Kind::Colon => Word::Colon,
        Kind::End => Word::End,
    }
}
